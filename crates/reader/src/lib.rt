// A reader of a work file: the lent bytes and a place in them, where it takes records. It copies no block: a record is taken where it lies.
//
// The methods are few and thin: each takes the reader apart and calls what is on the bytes and the place. The one with plain parameters, below
// them, is for everyone else.
#![tactic(auto)]

ghost use Rattle.std.specs.Prelude.{◌≡◌, ◌+◌};
ghost use Rattle.reader.specs.Reader.{reader_of, place_after, moved_on};

use workfile::Record;

#[derive(Clone, Copy)]
pub struct Reader<'a> {
    pub file: &'a [u8],
    pub at: usize,
}

impl<'a> Reader<'a> {
    // A reader at the file's first byte.
    pub fn new(file: &'a [u8]) -> Reader<'a>
        ensures { result ≡ reader_of file.entry }
    {
        Reader { file, at: 0 }
    }

    // The reader so many bytes further on, at most at the end; one that stands behind the end goes back to it.
    pub fn moved_on(self, bytes: usize) -> Reader<'a>
        ensures { result ≡ moved_on self.entry bytes }
    {
        let at = place_after(self.file, self.at, bytes);
        Reader {
            file: self.file,
            at,
        }
    }

    // The record at the reader's place.
    pub fn take<R: Record>(self) -> R
        ensures { result ≡ R.read self.entry.file.now self.entry.at }
    {
        R::at(self.file, self.at)
    }
}

// The record that starts so many bytes behind the start of its block: the reader goes to the block, and on from there to the record.
pub fn record_from<R: Record>(file: &[u8], block: usize, further: usize) -> R
    ensures { result ≡ R.read file.now (block + further) }
{
    Reader::new(file).moved_on(block).moved_on(further).take()
}

// The place so many bytes behind another, at most the end. What 64 bits do not hold lies behind the end, as their last number does.
fn place_after(file: &[u8], at: usize, bytes: usize) -> usize
    ensures { result ≡ place_after file.now at bytes }
{
    at.saturating_add(bytes).min(file.len())
}
