// Reads and restocks.
ghost use Rattle.std.specs.Prelude.{◌≡◌, min, length, Ok, MatchResult};
ghost use Rattle.examples.specs.Restocks.{ShorterRestock};
ghost use Rattle.shelf.specs.Kinds.{buffer_after};
ghost use Rattle.shelf.specs.Meaning.{limit, Fit, Unfit};
ghost use Rattle.shelf.specs.Refusals.{Says};
ghost use Rattle.shelf.specs.Refusals.Place.{byte_length};

use shelf::{JoinedShelf, MemoryShelf, Refusal, Shelf, Source};

// Two shelves of 4 bytes are joined, restocked with 8 bytes and then with 3: they have 3, as any shelf of that capacity has.
pub fn shorter_restock() -> Result<u64, Refusal>
    ensures answer { result ≡ Ok 3 }
    ensures always { ShorterRestock }
{
    let mut near = [0u8; 4];
    let mut far = [0u8; 4];
    let mut shelf = JoinedShelf::new(MemoryShelf::new(&mut near), MemoryShelf::new(&mut far));
    shelf.restock(&[1, 2, 3, 4, 5, 6, 7, 8], 1)?;
    shelf.restock(&[9, 10, 11], 2)?;
    Ok(shelf.len())
}

// At the end of any source an empty read passes, and a read of one byte is refused 3 with the length.
pub fn at_the_end<S: Source>(source: &S) -> (Result<(), Refusal>, Result<(), Refusal>)
    ensures empty { result.0 ≡ Ok tt }
    ensures one { MatchResult result.1 (λ _. ⊥) (λ e. Says e 3 byte_length (length (S.Source.bytes source.now))) }
{
    let end = source.len();
    let mut one = [0u8; 1];
    let empty = source.read(end, &mut one[0..0]);
    (empty, source.read(end, &mut one))
}

// A buffer is made a shelf and restocked: then it begins with the bytes given, and the rest of it stays.
pub fn restocked_in_place(buffer: &mut [u8], given: &[u8], stamp: u32) -> Result<(), Refusal>
    ensures answer { MatchResult result (λ _. Fit (min (length buffer.old) limit) 0 (length given.now) stamp) (Unfit (min (length buffer.old) limit) 0 (length given.now) stamp) }
    ensures left { buffer.new ≡ buffer_after buffer.old given.now result }
{
    let mut shelf = MemoryShelf::new(buffer);
    shelf.restock(given, stamp)
}
