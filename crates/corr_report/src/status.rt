//! The line that tells how a run ended.

ghost use Rattle.std.specs.Prelude.{◌≡◌, ◌≤◌, [], length};
ghost use Rattle.corr_report.specs.Lines.{IsLine};
ghost use Rattle.corr_report.specs.Texts.{packets_text, status_text};

use crate::draft::Draft;

/// How a run ended.
#[derive(Clone, Copy, Debug, PartialEq, Eq)]
pub enum StatusLine {
    /// So many packets were sent.
    Sent(u64),
    /// So many packets were simulated.
    Simulated(u64),
    /// So many packets were relayed.
    Relayed(u64),
    /// The source of this antenna failed.
    SourceFault(u32),
    /// The sink failed.
    SinkFault,
    /// There was no memory.
    NoMemory,
    /// The source of the settings failed.
    SettingsFault,
}

/// Writes the line of a status at the front of the buffer, and answers its length.
pub fn status_line(line: &StatusLine, out: &mut [u8; 1024]) -> usize
    ensures line { IsLine out.old out.new result (status_text line.now) }
    ensures fits { result ≤ 1024 }
{
    let mut draft = Draft::new();
    put_status(&mut draft, line);
    draft.write_to(out)
}

// Puts the line of a status.
fn put_status(draft: &mut Draft, line: &StatusLine)
    requires { draft.old ≡ [] }
    ensures { draft.new ≡ status_text line.now }
{
    match *line {
        StatusLine::Sent(packets) => put_packets(draft, b"sent ", packets),
        StatusLine::Simulated(packets) => put_packets(draft, b"simulated ", packets),
        StatusLine::Relayed(packets) => put_packets(draft, b"relayed ", packets),
        StatusLine::SourceFault(antenna) => {
            draft.put_number(b"source fault ", antenna);
            draft.put(b"\n");
        }
        StatusLine::SinkFault => draft.put(b"sink fault\n"),
        StatusLine::NoMemory => draft.put(b"no memory\n"),
        StatusLine::SettingsFault => draft.put(b"settings source fault\n"),
    }
}

// Puts what was done, and to how many packets.
fn put_packets(draft: &mut Draft, done: &[u8], packets: u64)
    requires empty { draft.old ≡ [] }
    requires short { length done.now ≤ 20 }
    ensures { draft.new ≡ packets_text done.now packets }
{
    draft.put_number(done, packets);
    draft.put(b" packets\n");
}
