//! How the program is called.

ghost use Rattle.std.specs.Prelude.{◌≡◌, ◌≤◌, []};
ghost use Rattle.corr_report.specs.Lines.{IsLine};
ghost use Rattle.corr_report.specs.Texts.{usage_text};

use crate::draft::Draft;

const USAGE: &[u8] = b"usage:\n\
spead_corr plain A F S T N IN.. OUT\n\
spead_corr correlate [--serial] CONFIG\n\
spead_corr trial [--serial] CONFIG SEED\n\
spead_corr simulate CONFIG SEED ANTENNA OUT\n\
spead_corr relay FROM TO LIMIT\n\
spead_corr inspect IN\n\
spead_corr decode IN LIMIT\n";

/// Writes how the program is called, one line for each command, at the front of the buffer, and
/// answers the length.
pub fn usage(out: &mut [u8; 1024]) -> usize
    ensures line { IsLine out.old out.new result usage_text }
    ensures fits { result ≤ 1024 }
{
    let mut draft = Draft::new();
    put_usage(&mut draft);
    draft.write_to(out)
}

// Puts how the program is called.
#[tactic(auto, unfolding(crate::specs::Texts::usage_text))]
fn put_usage(draft: &mut Draft)
    requires { draft.old ≡ [] }
    ensures { draft.new ≡ usage_text }
{
    draft.put(USAGE)
}
