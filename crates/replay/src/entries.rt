// A file of samples is entries, one after the other, to the end of the file. Numbers are little-endian and have 4 bytes, unless 8 or 1 is
// said. An entry:
//
// - the length of a message, and its bytes;
// - what reading it gives at limit 15, into 4,096 rows and 65,536 pool bytes: a number and two values of 8 bytes. 0, the length consumed
//   and 0; or a refusal's number and values, 0 for each that it does not have.
//
// Where that number is 0, the entry goes on:
//
// - how many words the type's rows have, 16 a row, and the words;
// - how many pool bytes the type has, and the bytes;
// - its size;
// - whether it holds an object address, and whether it holds a file address: 1 byte each, 1 or 0;
// - what writing it gives in edition 3: a number, a length and so many bytes. 0 and the message; or a refusal's number, 0 and nothing;
// - what listing its slots gives: a number, a count and so many slots of 8 bytes. 0 and the slots; or a refusal's number, 0 and nothing.
ghost use Rattle.std.specs.Prelude.{◌≡◌, ◌+◌, ◌≤◌, length, IfSome};

// What is left of a file of samples.
#[derive(Drop)]
pub struct Rest<'a> {
    pub bytes: &'a [u8],
}

// A number and two values.
#[derive(Clone, Copy, PartialEq, Eq)]
pub struct Answer {
    pub number: u32,
    pub first: u64,
    pub second: u64,
}

// A number, and the bytes of what is listed or written.
#[derive(Clone, Copy)]
pub struct Given<'a> {
    pub number: u32,
    pub bytes: &'a [u8],
}

// What an entry says of the type itself.
#[derive(Clone, Copy)]
pub struct Sample<'a> {
    pub words: &'a [u8],
    pub pool: &'a [u8],
    pub size: u32,
    pub object: u8,
    pub file: u8,
    pub written: Given<'a>,
    pub listed: Given<'a>,
}

// An entry; where its message is refused, without a sample.
#[derive(Clone, Copy)]
pub struct Entry<'a> {
    pub message: &'a [u8],
    pub answer: Answer,
    pub sample: Option<Sample<'a>>,
}

impl<'a> Rest<'a> {
    // The next bytes, if there are so many.
    fn take(&mut self, count: usize) -> Option<&'a [u8]>
        ensures { IfSome result (λ _. length self.new.bytes.now ≤ length self.old.bytes.now) }
    {
        let (next, rest) = self.bytes.split_at_checked(count)?;
        self.bytes = rest;
        Some(next)
    }

    fn one(&mut self) -> Option<u8>
        ensures { IfSome result (λ _. length self.new.bytes.now ≤ length self.old.bytes.now) }
    {
        let (next, rest) = self.bytes.split_first()?;
        self.bytes = rest;
        Some(*next)
    }

    fn chunk<const N: usize>(&mut self) -> Option<&'a [u8; N]>
        ensures { IfSome result (λ _. length self.new.bytes.now + N ≡ length self.old.bytes.now) }
    {
        let (next, rest) = self.bytes.split_first_chunk::<N>()?;
        self.bytes = rest;
        Some(next)
    }

    fn four(&mut self) -> Option<u32>
        ensures { IfSome result (λ _. length self.new.bytes.now + 4 ≡ length self.old.bytes.now) }
    {
        Some(u32::from_le_bytes(*self.chunk()?))
    }

    fn eight(&mut self) -> Option<u64>
        ensures { IfSome result (λ _. length self.new.bytes.now ≤ length self.old.bytes.now) }
    {
        Some(u64::from_le_bytes(*self.chunk()?))
    }

    // A count, and so many items of a size.
    fn items(&mut self, size: usize) -> Option<&'a [u8]>
        requires { size ≤ 8 }
        ensures { IfSome result (λ _. length self.new.bytes.now + 4 ≤ length self.old.bytes.now) }
    {
        let count = self.four()?;
        self.take(size * count as usize)
    }

    fn answer(&mut self) -> Option<Answer>
        ensures { IfSome result (λ _. length self.new.bytes.now ≤ length self.old.bytes.now) }
    {
        Some(Answer {
            number: self.four()?,
            first: self.eight()?,
            second: self.eight()?,
        })
    }

    fn given(&mut self, size: usize) -> Option<Given<'a>>
        requires { size ≤ 8 }
        ensures { IfSome result (λ _. length self.new.bytes.now ≤ length self.old.bytes.now) }
    {
        Some(Given {
            number: self.four()?,
            bytes: self.items(size)?,
        })
    }

    fn sample(&mut self) -> Option<Sample<'a>>
        ensures { IfSome result (λ _. length self.new.bytes.now ≤ length self.old.bytes.now) }
    {
        Some(Sample {
            words: self.items(4)?,
            pool: self.items(1)?,
            size: self.four()?,
            object: self.one()?,
            file: self.one()?,
            written: self.given(1)?,
            listed: self.given(8)?,
        })
    }

    // The next entry, or none where it is cut off.
    pub fn entry(&mut self) -> Option<Entry<'a>>
        ensures { IfSome result (λ _. length self.new.bytes.now + 4 ≤ length self.old.bytes.now) }
    {
        let message = self.items(1)?;
        let answer = self.answer()?;
        let sample = if answer.number == 0 {
            Some(self.sample()?)
        } else {
            None
        };
        Some(Entry {
            message,
            answer,
            sample,
        })
    }
}
