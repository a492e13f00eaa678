// What is left of a file of cases, from which a case is cut off part by part. Numbers are low byte first.
ghost use Rattle.std.specs.Prelude.{◌≡◌, ◌<◌, ◌≤◌, [], take, IfSome};
ghost use Rattle.cases.specs.Places.{CasePlaced, PartTaken};

// What is left of a file, and the book of the case before, which a case without a book of its own asks; before the first case it is empty.
#[derive(Clone, Copy)]
pub struct Parts<'a> {
    rest: &'a [u8],
    book: &'a [u8],
}

impl<'a> Parts<'a> {
    // All of a file.
    pub fn of(file: &'a [u8]) -> Self
        ensures { (result.rest.now ≡ file.now) × (result.book.now ≡ []) }
    {
        Parts {
            rest: file,
            book: &[],
        }
    }

    // The next so many bytes; none where fewer are left.
    pub fn take(&mut self, size: usize) -> Option<&'a [u8]>
        ensures { IfSome result (λ part. PartTaken size self.old self.new × (part.now ≡ take size self.old.rest.now)) }
    {
        let (part, rest) = self.rest.split_at_checked(size)?;
        self.rest = rest;
        Some(part)
    }

    // The next bytes as an array.
    fn array<const N: usize>(&mut self) -> Option<[u8; N]>
        ensures { IfSome result (λ _. PartTaken N self.old self.new) }
    {
        <[u8; N]>::try_from(self.take(N)?).ok()
    }

    // The number of the next four bytes.
    pub fn four(&mut self) -> Option<usize>
        ensures { IfSome result (λ number. PartTaken 4 self.old self.new × (number < 4294967296)) }
    {
        Some(u32::from_le_bytes(self.array()?) as usize)
    }

    // The number of the next four bytes; none where it is larger.
    pub fn four_up_to(&mut self, most: usize) -> Option<usize>
        ensures { IfSome result (λ number. PartTaken 4 self.old self.new × (number ≤ most)) }
    {
        self.four().filter(|number| *number <= most)
    }

    // The number of the next eight bytes.
    pub fn eight(&mut self) -> Option<usize>
        ensures { IfSome result (λ _. PartTaken 8 self.old self.new) }
    {
        Some(usize::from_le_bytes(self.array()?))
    }

    // The book of a case that has so many bytes for one. Where they are none, it is that of the case before.
    pub fn book(&mut self, size: usize) -> Option<&'a [u8]>
        ensures placed { IfSome result (λ book. CasePlaced self.old self.new × (book.now ≡ self.new.book.now)) }
        ensures own { IfSome result (λ book. 0 < size → book.now ≡ take size self.old.rest.now) }
        ensures before { IfSome result (λ book. size ≡ 0 → book.now ≡ self.old.book.now) }
    {
        if 0 < size {
            self.book = self.take(size)?;
        }
        Some(self.book)
    }
}
