// What the products call: numbers and byte slices in, one number out, code plus 256 times place. The crate rule_deck_c exports it to C.
#![tactic(auto)]

ghost use Rattle.std.specs.Prelude.{◌≡◌, length};
ghost use Rattle.format.specs.Fault.{packed};
ghost use Rattle.version.specs.Version.{version};
ghost use Rattle.kind.specs.Kinds.{edition_of, kind_of};
ghost use Rattle.deck.specs.Deck.{answered, read_deck};
ghost use Rattle.tables.specs.Tables.{read_says, rules_after, elements_after};
ghost use Rattle.view.specs.View.{view_says, part_says};
ghost use Rattle.name_view.specs.Name.{name_view};
ghost use Rattle.word_view.specs.Word.{word_view};
ghost use Rattle.fixed.specs.Fixed.{fields_answer};
ghost use Rattle.value.specs.Value.{value_answer};
ghost use Rattle.put.specs.Plan.{putting, put_says, put_leaves};
ghost use Rattle.lent.specs.Lent.{kind_width, fields_width, part_width, value_width};
ghost use Rattle.put_table.specs.Table.{value_from};
ghost use Rattle.plan.specs.Edit.{switch, rename, remove, insert, add_rule, add_element, add_word};
ghost use Rattle.start.specs.Start.{start_says, start_leaves};
ghost use Rattle.rule_deck.specs.Sent.{Hands, HandsMoment, Sends, SendsOther, fields_of};

use rule::Fields;

// The version of this library.
pub fn rule_deck_version() -> u64
    ensures { result ≡ version }
{
    version::version()
}

// The deck check: the number of rules as its place, or a refusal.
pub fn rule_deck_check(edition: u64, deck: &[u8]) -> u64
    ensures { result ≡ packed (answered (read_deck edition deck.now)) }
{
    packed::pack(deck::check(edition, deck))
}

// Reads a deck into two tables.
pub fn rule_deck_read(edition: u64, deck: &[u8], rules: &mut [u32], elements: &mut [u32]) -> u64
    ensures { (result ≡ packed (read_says (edition_of edition) (length rules.old) (length elements.old) deck.now)) × ((rules.new ≡ rules_after (edition_of edition) deck.now rules.old elements.old) × (elements.new ≡ elements_after (edition_of edition) deck.now rules.old elements.old)) }
{
    packed::pack(tables::read(edition, deck, rules, elements))
}

// Where the units of the name of rule k start.
pub fn rule_deck_name(edition: u64, deck: &[u8], k: u64) -> u64
    ensures { result ≡ packed (view_says (name_view edition k deck.now)) }
{
    let v = name_view::find_name(edition, deck, k);
    packed::pack(view::place_of(v))
}

// Where the units of word w of element e of rule k start.
pub fn rule_deck_word(edition: u64, deck: &[u8], k: u64, e: u64, w: u64) -> u64
    ensures { result ≡ packed (view_says (word_view edition k e w deck.now)) }
{
    let v = word_view::find_word(edition, deck, k, e, w);
    packed::pack(view::place_of(v))
}

// The row of an identifier among the kinds, and its role.
pub fn rule_deck_kind(edition: u64, identifier: u32, kind: &mut [u32]) -> u64
    ensures { Hands kind_width kind.old (kind_of edition identifier) result kind.new }
{
    packed::pack(lent_kind::kind(edition, identifier, kind))
}

// The fixed fields of rule k.
pub fn rule_deck_fields(edition: u64, deck: &[u8], k: u64, fields: &mut [u32]) -> u64
    ensures { Hands fields_width fields.old (fields_answer edition k deck.now) result fields.new }
{
    packed::pack(lent_fields::fields(edition, deck, k, fields))
}

// The name of rule k as a part of the deck, by its numbers.
pub fn rule_deck_name_part(edition: u64, deck: &[u8], k: u64, part: &mut [u32]) -> u64
    ensures { Hands part_width part.old (part_says (name_view edition k deck.now)) result part.new }
{
    packed::pack(lent_part::name_part(edition, deck, k, part))
}

// Word w of element e of rule k as a part of the deck, by its numbers.
pub fn rule_deck_word_part(
    edition: u64,
    deck: &[u8],
    k: u64,
    e: u64,
    w: u64,
    part: &mut [u32],
) -> u64
    ensures { Hands part_width part.old (part_says (word_view edition k e w deck.now)) result part.new }
{
    packed::pack(lent_part::word_part(edition, deck, k, e, w, part))
}

// What the date of these bits says.
pub fn rule_deck_moment(bits: u64, moment: &mut [u32]) -> u64
    ensures { HandsMoment bits moment.old result moment.new }
{
    packed::pack(lent_moment::moment(bits, moment))
}

// The value of lone element data.
pub fn rule_deck_value(edition: u64, identifier: u32, s: &[u8], value: &mut [u64]) -> u64
    ensures { Hands value_width value.old (value_answer edition identifier s.now) result value.new }
{
    packed::pack(value_table::value(edition, identifier, s, value))
}

// A value as the data of an identifier, written at the start of a buffer.
pub fn rule_deck_put_value(edition: u64, identifier: u32, value: &[u64], buf: &mut [u8]) -> u64
    ensures { (result ≡ packed (put_says (putting edition identifier (value_from value.now) (length buf.old)))) × (buf.new ≡ put_leaves buf.old (putting edition identifier (value_from value.now) (length buf.old))) }
{
    packed::pack(put_table::put_value(edition, identifier, value, buf))
}

// Starts an empty deck.
pub fn rule_deck_start(buf: &mut [u8]) -> u64
    ensures { (result ≡ packed (start_says (length buf.old))) × (buf.new ≡ start_leaves buf.old) }
{
    packed::pack(start::start(buf))
}

// Switches rule k on or off.
pub fn rule_deck_switch(edition: u64, buf: &mut [u8], stated: u64, k: u64, on: bool) -> u64
    ensures { Sends edition stated (switch k on) buf.old result buf.new }
{
    packed::pack(switch::switch(edition, buf, stated as usize, k, on))
}

// Renames rule k.
pub fn rule_deck_rename(edition: u64, buf: &mut [u8], stated: u64, k: u64, name: &[u8]) -> u64
    ensures { Sends edition stated (rename k name.now) buf.old result buf.new }
{
    packed::pack(rename::rename(edition, buf, stated as usize, k, name))
}

// Removes rule k.
pub fn rule_deck_remove(edition: u64, buf: &mut [u8], stated: u64, k: u64) -> u64
    ensures { Sends edition stated (remove k) buf.old result buf.new }
{
    packed::pack(remove::remove(edition, buf, stated as usize, k))
}

// Inserts at place k a copy of rule j of a second deck.
pub fn rule_deck_insert(
    edition: u64,
    buf: &mut [u8],
    stated: u64,
    k: u64,
    second: &[u8],
    j: u64,
) -> u64
    ensures { Sends edition stated (insert k second.now j) buf.old result buf.new }
{
    packed::pack(insert::insert(edition, buf, stated as usize, k, second, j))
}

// Adds a rule at the end.
pub fn rule_deck_add_rule(
    edition: u64,
    buf: &mut [u8],
    stated: u64,
    name: &[u8],
    signature: u32,
    on: bool,
    unknown2: u32,
    unknown3: u32,
    unknown4: u32,
    unknown5: u32,
    identifier: u32,
    s: &[u8],
) -> u64
    ensures { Sends edition stated (add_rule name.now (fields_of signature on unknown2 unknown3 unknown4 unknown5) identifier s.now) buf.old result buf.new }
{
    let fields = Fields {
        signature,
        on,
        unknown2,
        unknown3,
        unknown4,
        unknown5,
    };
    packed::pack(add_rule::add_rule(edition, buf, stated as usize, name, fields, identifier, s))
}

// Adds an element to the last rule.
pub fn rule_deck_add_element(
    edition: u64,
    buf: &mut [u8],
    stated: u64,
    identifier: u32,
    s: &[u8],
) -> u64
    ensures { Sends edition stated (add_element identifier s.now) buf.old result buf.new }
{
    packed::pack(add_element::add_element(edition, buf, stated as usize, identifier, s))
}

// Adds a word to the list that is the last element of the last rule.
pub fn rule_deck_add_word(edition: u64, buf: &mut [u8], stated: u64, word: &[u8]) -> u64
    ensures { Sends edition stated (add_word word.now) buf.old result buf.new }
{
    packed::pack(word::add_word(edition, buf, stated as usize, word))
}

// A deck of version 1 as one of version 2.
pub fn rule_deck_to_2(edition: u64, deck: &[u8], buf: &mut [u8]) -> u64
    ensures { SendsOther edition 1 2 deck.now buf.old result buf.new }
{
    packed::pack(convert::to_2(edition, deck, buf))
}

// A deck of version 2 as one of version 1.
pub fn rule_deck_to_1(edition: u64, deck: &[u8], buf: &mut [u8]) -> u64
    ensures { SendsOther edition 2 1 deck.now buf.old result buf.new }
{
    packed::pack(convert::to_1(edition, deck, buf))
}
