//! A buffer filled from a source of text.

ghost use Rattle.std.specs.Prelude.{◌≡◌, ◌≤◌, true, length, IfOk};
ghost use Rattle.corr_site.specs.Outside.{HasCause};
ghost use Rattle.corr_text.specs.Filling.{Fills};

use corr_site::{Failed, Got, TextSource};

/// Fills the buffer from its front, up to its end or to that of the text, and answers the number of
/// bytes. A buffer that is one byte longer than a text may be shows a text that is too long, and
/// nothing beyond the buffer is read. `Failed` comes only where the source's count of faults rose.
pub fn fill<D: TextSource>(source: &mut D, buf: &mut [u8]) -> Result<usize, Failed>
    requires begun { D.begun source.old ≡ true }
    ensures text { Fills (D.left source.old) (D.left source.new) buf.new result }
    ensures within { IfOk result (λ n. n ≤ length buf.new) }
    ensures length { length buf.new ≡ length buf.old }
    ensures begun { D.begun source.new ≡ true }
    ensures at { D.at source.new ≡ D.at source.old }
    ensures cause { HasCause (D.faults source.old) (D.faults source.new) result }
{
    let mut at = 0usize;
    while at < buf.len() {
        match source.read(&mut buf[at..]) {
            Got::Bytes(n) => at += n,
            Got::End => return Ok(at),
            Got::Failed => return Err(Failed),
        }
    }
    Ok(at)
}
