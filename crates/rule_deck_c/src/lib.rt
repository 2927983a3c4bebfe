// The calls of rule_deck, exported to C.
#![tactic(auto)]

ghost use Rattle.std.specs.Prelude.{◌≡◌, length};
ghost use Rattle.format.specs.Fault.{packed};
ghost use Rattle.version.specs.Version.{version};
ghost use Rattle.kind.specs.Kinds.{edition_of, kind_of};
ghost use Rattle.deck.specs.Deck.{answered, read_deck};
ghost use Rattle.tables.specs.Tables.{read_says, rules_after, elements_after};
ghost use Rattle.view.specs.View.{view_says, part_says};
ghost use Rattle.name_view.specs.Name.{name_view};
ghost use Rattle.word_view.specs.Word.{word_view};
ghost use Rattle.fixed.specs.Fixed.{fields_answer};
ghost use Rattle.value.specs.Value.{value_answer};
ghost use Rattle.put.specs.Plan.{putting, put_says, put_leaves};
ghost use Rattle.lent.specs.Lent.{kind_width, fields_width, part_width, value_width};
ghost use Rattle.put_table.specs.Table.{value_from};
ghost use Rattle.plan.specs.Edit.{switch, rename, remove, insert, add_rule, add_element, add_word};
ghost use Rattle.start.specs.Start.{start_says, start_leaves};
ghost use Rattle.rule_deck.specs.Sent.{Hands, HandsMoment, Sends, SendsOther, fields_of};

// The version of this library.
#[unsafe(no_mangle)]
pub extern "C" fn rule_deck_version() -> u64
    ensures { result ≡ version }
{
    rule_deck::rule_deck_version()
}

// The deck check: the number of rules as its place, or a refusal.
#[unsafe(no_mangle)]
pub extern "C" fn rule_deck_check(edition: u64, deck: &[u8]) -> u64
    ensures { result ≡ packed (answered (read_deck edition deck.now)) }
{
    rule_deck::rule_deck_check(edition, deck)
}

// Reads a deck into two tables.
#[unsafe(no_mangle)]
pub extern "C" fn rule_deck_read(
    edition: u64,
    deck: &[u8],
    rules: &mut [u32],
    elements: &mut [u32],
) -> u64
    ensures { (result ≡ packed (read_says (edition_of edition) (length rules.old) (length elements.old) deck.now)) × ((rules.new ≡ rules_after (edition_of edition) deck.now rules.old elements.old) × (elements.new ≡ elements_after (edition_of edition) deck.now rules.old elements.old)) }
{
    rule_deck::rule_deck_read(edition, deck, rules, elements)
}

// Where the units of the name of rule k start.
#[unsafe(no_mangle)]
pub extern "C" fn rule_deck_name(edition: u64, deck: &[u8], k: u64) -> u64
    ensures { result ≡ packed (view_says (name_view edition k deck.now)) }
{
    rule_deck::rule_deck_name(edition, deck, k)
}

// Where the units of word w of element e of rule k start.
#[unsafe(no_mangle)]
pub extern "C" fn rule_deck_word(edition: u64, deck: &[u8], k: u64, e: u64, w: u64) -> u64
    ensures { result ≡ packed (view_says (word_view edition k e w deck.now)) }
{
    rule_deck::rule_deck_word(edition, deck, k, e, w)
}

// The row of an identifier among the kinds, and its role.
#[unsafe(no_mangle)]
pub extern "C" fn rule_deck_kind(edition: u64, identifier: u32, kind: &mut [u32]) -> u64
    ensures { Hands kind_width kind.old (kind_of edition identifier) result kind.new }
{
    rule_deck::rule_deck_kind(edition, identifier, kind)
}

// The fixed fields of rule k.
#[unsafe(no_mangle)]
pub extern "C" fn rule_deck_fields(edition: u64, deck: &[u8], k: u64, fields: &mut [u32]) -> u64
    ensures { Hands fields_width fields.old (fields_answer edition k deck.now) result fields.new }
{
    rule_deck::rule_deck_fields(edition, deck, k, fields)
}

// The name of rule k as a part of the deck, by its numbers.
#[unsafe(no_mangle)]
pub extern "C" fn rule_deck_name_part(edition: u64, deck: &[u8], k: u64, part: &mut [u32]) -> u64
    ensures { Hands part_width part.old (part_says (name_view edition k deck.now)) result part.new }
{
    rule_deck::rule_deck_name_part(edition, deck, k, part)
}

// Word w of element e of rule k as a part of the deck, by its numbers.
#[unsafe(no_mangle)]
pub extern "C" fn rule_deck_word_part(
    edition: u64,
    deck: &[u8],
    k: u64,
    e: u64,
    w: u64,
    part: &mut [u32],
) -> u64
    ensures { Hands part_width part.old (part_says (word_view edition k e w deck.now)) result part.new }
{
    rule_deck::rule_deck_word_part(edition, deck, k, e, w, part)
}

// What the date of these bits says.
#[unsafe(no_mangle)]
pub extern "C" fn rule_deck_moment(bits: u64, moment: &mut [u32]) -> u64
    ensures { HandsMoment bits moment.old result moment.new }
{
    rule_deck::rule_deck_moment(bits, moment)
}

// The value of lone element data.
#[unsafe(no_mangle)]
pub extern "C" fn rule_deck_value(edition: u64, identifier: u32, s: &[u8], value: &mut [u64]) -> u64
    ensures { Hands value_width value.old (value_answer edition identifier s.now) result value.new }
{
    rule_deck::rule_deck_value(edition, identifier, s, value)
}

// A value as the data of an identifier, written at the start of a buffer.
#[unsafe(no_mangle)]
pub extern "C" fn rule_deck_put_value(
    edition: u64,
    identifier: u32,
    value: &[u64],
    buf: &mut [u8],
) -> u64
    ensures { (result ≡ packed (put_says (putting edition identifier (value_from value.now) (length buf.old)))) × (buf.new ≡ put_leaves buf.old (putting edition identifier (value_from value.now) (length buf.old))) }
{
    rule_deck::rule_deck_put_value(edition, identifier, value, buf)
}

// Starts an empty deck.
#[unsafe(no_mangle)]
pub extern "C" fn rule_deck_start(buf: &mut [u8]) -> u64
    ensures { (result ≡ packed (start_says (length buf.old))) × (buf.new ≡ start_leaves buf.old) }
{
    rule_deck::rule_deck_start(buf)
}

// Switches rule k on or off.
#[unsafe(no_mangle)]
pub extern "C" fn rule_deck_switch(
    edition: u64,
    buf: &mut [u8],
    stated: u64,
    k: u64,
    on: bool,
) -> u64
    ensures { Sends edition stated (switch k on) buf.old result buf.new }
{
    rule_deck::rule_deck_switch(edition, buf, stated, k, on)
}

// Renames rule k.
#[unsafe(no_mangle)]
pub extern "C" fn rule_deck_rename(
    edition: u64,
    buf: &mut [u8],
    stated: u64,
    k: u64,
    name: &[u8],
) -> u64
    ensures { Sends edition stated (rename k name.now) buf.old result buf.new }
{
    rule_deck::rule_deck_rename(edition, buf, stated, k, name)
}

// Removes rule k.
#[unsafe(no_mangle)]
pub extern "C" fn rule_deck_remove(edition: u64, buf: &mut [u8], stated: u64, k: u64) -> u64
    ensures { Sends edition stated (remove k) buf.old result buf.new }
{
    rule_deck::rule_deck_remove(edition, buf, stated, k)
}

// Inserts at place k a copy of rule j of a second deck.
#[unsafe(no_mangle)]
pub extern "C" fn rule_deck_insert(
    edition: u64,
    buf: &mut [u8],
    stated: u64,
    k: u64,
    second: &[u8],
    j: u64,
) -> u64
    ensures { Sends edition stated (insert k second.now j) buf.old result buf.new }
{
    rule_deck::rule_deck_insert(edition, buf, stated, k, second, j)
}

// Adds a rule at the end.
#[unsafe(no_mangle)]
pub extern "C" fn rule_deck_add_rule(
    edition: u64,
    buf: &mut [u8],
    stated: u64,
    name: &[u8],
    signature: u32,
    on: bool,
    unknown2: u32,
    unknown3: u32,
    unknown4: u32,
    unknown5: u32,
    identifier: u32,
    s: &[u8],
) -> u64
    ensures { Sends edition stated (add_rule name.now (fields_of signature on unknown2 unknown3 unknown4 unknown5) identifier s.now) buf.old result buf.new }
{
    rule_deck::rule_deck_add_rule(
        edition, buf, stated, name, signature, on, unknown2, unknown3, unknown4, unknown5,
        identifier, s,
    )
}

// Adds an element to the last rule.
#[unsafe(no_mangle)]
pub extern "C" fn rule_deck_add_element(
    edition: u64,
    buf: &mut [u8],
    stated: u64,
    identifier: u32,
    s: &[u8],
) -> u64
    ensures { Sends edition stated (add_element identifier s.now) buf.old result buf.new }
{
    rule_deck::rule_deck_add_element(edition, buf, stated, identifier, s)
}

// Adds a word to the list that is the last element of the last rule.
#[unsafe(no_mangle)]
pub extern "C" fn rule_deck_add_word(edition: u64, buf: &mut [u8], stated: u64, word: &[u8]) -> u64
    ensures { Sends edition stated (add_word word.now) buf.old result buf.new }
{
    rule_deck::rule_deck_add_word(edition, buf, stated, word)
}

// A deck of version 1 as one of version 2.
#[unsafe(no_mangle)]
pub extern "C" fn rule_deck_to_2(edition: u64, deck: &[u8], buf: &mut [u8]) -> u64
    ensures { SendsOther edition 1 2 deck.now buf.old result buf.new }
{
    rule_deck::rule_deck_to_2(edition, deck, buf)
}

// A deck of version 2 as one of version 1.
#[unsafe(no_mangle)]
pub extern "C" fn rule_deck_to_1(edition: u64, deck: &[u8], buf: &mut [u8]) -> u64
    ensures { SendsOther edition 2 1 deck.now buf.old result buf.new }
{
    rule_deck::rule_deck_to_1(edition, deck, buf)
}
