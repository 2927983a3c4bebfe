// Reading a file of vectors, or one of them, from its start on: None where it has too few bytes for what is read.

ghost use Rattle.std.specs.Prelude.{◌≡◌, ◌+◌, ◌*◌, ◌<◌, ◌^◌, length, IfSome};

#[derive(Clone, Copy)]
pub struct Reader<'a> {
    pub rest: &'a [u8],
}

impl<'a> Reader<'a> {
    pub fn bytes(&mut self, count: usize) -> Option<&'a [u8]>
        ensures { IfSome result (λ part. (length part.now ≡ count) × (length self.new.rest.now + count ≡ length self.old.rest.now)) }
    {
        let (part, rest) = self.rest.split_at_checked(count)?;
        self.rest = rest;
        Some(part)
    }

    pub fn byte(&mut self) -> Option<u8>
        ensures { IfSome result (λ _. length self.new.rest.now + 1 ≡ length self.old.rest.now) }
    {
        let (first, rest) = self.rest.split_first()?;
        self.rest = rest;
        Some(*first)
    }

    // A number of two bytes, and one of eight.
    pub fn two(&mut self) -> Option<usize>
        ensures { IfSome result (λ n. (n < 2 ^ 16) × (length self.new.rest.now + 2 ≡ length self.old.rest.now)) }
    {
        let (bytes, rest) = self.rest.split_first_chunk::<2>()?;
        self.rest = rest;
        Some(usize::from(u16::from_le_bytes(*bytes)))
    }

    pub fn eight(&mut self) -> Option<u64>
        ensures { IfSome result (λ _. length self.new.rest.now + 8 ≡ length self.old.rest.now) }
    {
        let (bytes, rest) = self.rest.split_first_chunk::<8>()?;
        self.rest = rest;
        Some(u64::from_le_bytes(*bytes))
    }

    // A number of numbers, and these, which it puts into a table.
    pub fn numbers<'t>(&mut self, table: &'t mut [u64; 255]) -> Option<&'t [u64]>
        ensures { IfSome result (λ numbers. length self.new.rest.now + 1 + 8 * length numbers.now ≡ length self.old.rest.now) }
    {
        let count = usize::from(self.byte()?);
        let numbers = &mut table[..count];
        for number in numbers.iter_mut() {
            *number = self.eight()?;
        }
        Some(numbers)
    }

    // The part of another string that the next two numbers name: how many bytes, and from where.
    pub fn part_of<'s>(&mut self, source: &'s [u8]) -> Option<&'s [u8]>
        ensures { IfSome result (λ _. length self.new.rest.now + 4 ≡ length self.old.rest.now) }
    {
        let count = self.two()?;
        let from = self.two()?;
        source.get(from..from + count)
    }
}
