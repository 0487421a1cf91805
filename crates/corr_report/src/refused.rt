//! The lines on what was refused: settings, or a datagram.

ghost use Rattle.std.specs.Prelude.{◌≡◌, ◌≤◌, [], length};
ghost use Rattle.corr_settings.specs.Named.{HasShortName};
ghost use Rattle.corr_settings.specs.Table.{key_name};
ghost use Rattle.corr_report.specs.Lines.{IsLine};
ghost use Rattle.corr_report.specs.Texts.{key_text, range_text, refused_text, settings_text};

use crate::draft::Draft;
use corr_settings::{Key, SetRefusal};

/// Writes the line on refused settings at the front of the buffer, and answers its length.
pub fn settings_line(refusal: &SetRefusal, out: &mut [u8; 1024]) -> usize
    requires short { HasShortName refusal.now }
    ensures line { IsLine out.old out.new result (settings_text refusal.now) }
    ensures fits { result ≤ 1024 }
{
    let mut draft = Draft::new();
    put_refusal(&mut draft, refusal);
    draft.write_to(out)
}

/// Writes the line on a datagram that was refused, with its number from 0 and the name of the
/// cause, at the front of the buffer, and answers its length.
pub fn refused_line(place: u64, name: &str, out: &mut [u8; 1024]) -> usize
    requires short { length name.now ≤ 64 }
    ensures line { IsLine out.old out.new result (refused_text place name.now) }
    ensures fits { result ≤ 1024 }
{
    let mut draft = Draft::new();
    draft.put_number(b"refused ", place);
    draft.put(b" ");
    draft.put(name.as_bytes());
    draft.put(b"\n");
    draft.write_to(out)
}

// Puts the line on refused settings.
fn put_refusal(draft: &mut Draft, refusal: &SetRefusal)
    requires empty { draft.old ≡ [] }
    requires short { HasShortName refusal.now }
    ensures { draft.new ≡ settings_text refusal.now }
{
    match refusal {
        SetRefusal::TooLong => draft.put(b"settings: too long\n"),
        SetRefusal::NotToml => draft.put(b"settings: not TOML\n"),
        SetRefusal::Missing(key) => put_key(draft, b"settings: missing ", *key),
        SetRefusal::Kind(key) => put_key(draft, b"settings: kind ", *key),
        SetRefusal::Range(key, value) => put_range(draft, *key, *value),
        SetRefusal::Unknown(name) => {
            draft.put(b"settings: unknown ");
            draft.put(name.as_str().as_bytes());
            draft.put(b"\n");
        }
        SetRefusal::TooLarge(bytes) => {
            draft.put_number(b"settings: too large ", *bytes);
            draft.put(b"\n");
        }
        SetRefusal::NoMemory => draft.put(b"no memory\n"),
    }
}

// A key as it is written.
fn key_bytes(key: Key) -> &'static [u8]
    ensures value { result.now ≡ key_name key }
    ensures short { length result.now ≤ 13 }
{
    key.name().as_bytes()
}

// Puts what is wrong, and with which key.
fn put_key(draft: &mut Draft, wrong: &[u8], key: Key)
    requires empty { draft.old ≡ [] }
    requires short { length wrong.now ≤ 20 }
    ensures { draft.new ≡ key_text wrong.now key }
{
    draft.put(wrong);
    draft.put(key_bytes(key));
    draft.put(b"\n");
}

// Puts the key and the value that is out of its range.
fn put_range(draft: &mut Draft, key: Key, value: i64)
    requires { draft.old ≡ [] }
    ensures { draft.new ≡ range_text key value }
{
    draft.put(b"settings: range ");
    draft.put(key_bytes(key));
    draft.put_number(b" ", value);
    draft.put(b"\n");
}
