// Open, feed and read.
ghost use Rattle.funnelivy.specs.Session.{OpenedMeets, FedMeets, ReadingMeets};

use c_record::{FunnelivyFed, FunnelivyOpened, FunnelivyReading, FunnelivySession};
use session::Session;

#[unsafe(no_mangle)]
pub extern "C" fn funnelivy_open(
    mode: u8,
    anchor: u64,
    flag_store: &[u8],
    sample_store: &mut [f32],
    first: &[f32],
) -> FunnelivyOpened
    ensures { OpenedMeets mode anchor flag_store.now sample_store.old first.now result sample_store.new }
{
    session::open(mode, anchor, flag_store, sample_store, first).into()
}

#[unsafe(no_mangle)]
pub extern "C" fn funnelivy_feed(
    session: FunnelivySession,
    flag_store: &mut [u8],
    sample_store: &mut [f32],
    img: &mut [u8],
    votes: &mut [u16],
    flags: &[u8],
    samples: &[f32],
) -> FunnelivyFed
    ensures { FedMeets session flag_store.old sample_store.old img.old votes.old flags.now samples.now result flag_store.new sample_store.new img.new votes.new }
{
    let s = Session::from(session);
    s.feed(flag_store, sample_store, img, votes, flags, samples)
        .into()
}

#[unsafe(no_mangle)]
pub extern "C" fn funnelivy_read(session: FunnelivySession) -> FunnelivyReading
    ensures { ReadingMeets session result }
{
    Session::from(session).read().into()
}
