// The piece of a recorded feed: its sizes, which stand in the halves of a word, and what it holds.
ghost use Rattle.std.specs.Prelude.{◌≡◌, ◌/◌, ◌%◌, ◌^◌, IfOk};
ghost use Rattle.lent_memory.specs.Pieces.{IsAsLong};

use replay::payload::{self, Payload};
use std::alloc::{AllocError, Global};

// The lower and the upper half of a word, as two sizes.
pub fn halves(word: u64) -> (usize, usize)
    ensures low { result.0 ≡ word % 2 ^ 32 }
    ensures high { result.1 ≡ word / 2 ^ 32 }
{
    ((word & 0xffff_ffff) as usize, (word >> 32) as usize)
}

// No piece has more.
const MOST_FLAGS: usize = 110000;

const MOST_SAMPLES: usize = 440000;

#[derive(Drop)]
pub struct Piece {
    pub flags: Vec<u8>,
    pub samples: Vec<f32>,
}

// Overwrites a flag of a piece, where it has one at the recorded place: the place and the value come next in the payload.
fn overwrite(payload: &mut Payload<'_>, flags: &mut [u8]) {
    let place = payload.number() as usize;
    let value = payload.number();
    if let (Some(flag), Ok(value)) = (flags.get_mut(place), u8::try_from(value)) {
        *flag = value;
    }
}

impl Piece {
    // The flags and the samples of a piece, of whose flags one at most is overwritten. None where they are not as many as the record says.
    pub fn read(lengths: u64, bytes: &[u8], alloc: Global) -> Result<Option<Piece>, AllocError>
        ensures { IfOk result (IsAsLong lengths) }
    {
        let (flag_count, sample_count) = halves(lengths);
        let numbers = payload::half_word_list(bytes, alloc)?;
        let mut payload = Payload::new(&numbers);
        let mut flags = payload.flags(MOST_FLAGS, alloc)?;
        let overwritten = payload.number();
        if flags.len() != flag_count || sample_count > MOST_SAMPLES || overwritten > 1 {
            return Ok(None);
        }
        if overwritten == 1 {
            overwrite(&mut payload, &mut flags);
        }
        let mut samples = vec![in alloc; 0.0f32; sample_count]?;
        payload.samples(&mut samples);
        Ok(Some(Piece { flags, samples }))
    }
}

#[cfg(test)]
mod tests {
    use super::Piece;
    use crate::{Memory, Sizes};
    use std::test::Fail;

    // One flag 0 and two flags 1, of which the first is overwritten by a 7, and the sample 1 at place 1.
    const PIECE: [u8; 36] = [
        2, 0, 0, 0, 1, 0, 0, 0, 2, 0, 0, 0, 1, 0, 0, 0, 0, 0, 0, 0, 7, 0, 0, 0, 1, 0, 0, 0, 1, 0,
        0, 0, 0, 0, 0x80, 0x3f,
    ];

    #[test]
    fn memory_and_pieces_are_made(rt: HostRuntime) -> Result<(), Fail> {
        let sizes = Sizes {
            store: 1,
            audio: 2,
            img: 3,
            votes: 4,
        };
        let memory = Memory::new(sizes, rt.alloc())?;
        assert_eq!(rt; memory.store.as_slice(), [0].as_slice());
        assert_eq!(rt; memory.audio.as_slice(), [0.0; 2].as_slice());
        assert_eq!(rt; memory.img.as_slice(), [0; 3].as_slice());
        assert_eq!(rt; memory.votes.as_slice(), [0; 4].as_slice());

        let piece = Piece::read(0x2_0000_0003, &PIECE, rt.alloc())?.ok_or("no piece")?;
        assert_eq!(rt; piece.flags.as_slice(), [7, 1, 1].as_slice());
        assert_eq!(rt; piece.samples.as_slice(), [0.0, 1.0].as_slice());
        Ok(())
    }
}
