// The whole writer. No table, span or count is too bad to be lent: the answer says what is wrong with it.
ghost use Rattle.model.specs.Told.{lent_is};
ghost use Rattle.model.specs.Written.{Writes};

use crate::count::count;
use crate::lay::lay;
use format::tags::Limit;
use model::Lent;
use refusal::Refusal;

// The bytes are counted before they are put, so that a refusal leaves the output untouched. They are put into as much of it as they take:
// a store that reaches further than its bytes stays within them.
pub fn write(l: &Lent, mask: u8, strip: bool, out: &mut [u8]) -> Result<usize, Refusal>
    ensures { Writes mask strip (lent_is l.now) out.old out.new result }
{
    judging::judge(mask, l)?;
    let size = count(strip, l);
    if Limit::BYTES < size {
        return Err(Refusal::BadModel { rule: 11 });
    }
    if out.len() < size {
        return Err(Refusal::NoRoom { needed: size });
    }
    lay(&mut out[..size], strip, l);
    Ok(size)
}
