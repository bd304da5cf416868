// `find_sync`, with its report as a record of numbers.
ghost use Rattle.funnelivy.specs.Report.{ReportMeets};

use c_answer::FunnelivyReportAnswer;

// `find_sync`.
#[unsafe(no_mangle)]
pub extern "C" fn funnelivy_find_sync(
    flags: &[u8],
    rate: f64,
    mode: u8,
    img: &mut [u8],
    votes: &mut [u16],
) -> FunnelivyReportAnswer
    ensures { ReportMeets flags.now rate mode result img.old img.new votes.old votes.new }
{
    sync::find_sync(flags, rate, mode, img, votes).into()
}
