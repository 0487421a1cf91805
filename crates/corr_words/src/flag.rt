//! The flag `--serial`, by which a command runs on one thread.

ghost use Rattle.std.specs.Prelude.{◌≡◌, ◌<◌, length, map, string_bytes, slice_get, Some, None, IfSome, IfNone, true, false};
ghost use Rattle.std.specs.List.{list_any};
ghost use Rattle.corr_words.specs.Words.{is_flag, takes_flag};
ghost use Rattle.corr_words.specs.Forms.{IsFirstFlag, needs_threads};

// Whether the command takes the flag.
pub(crate) fn takes_flag(command: &str) -> bool
    ensures { result ≡ takes_flag command.now }
{
    command == "correlate" || command == "trial"
}

// Whether the word is the flag.
pub(crate) fn is_flag(word: &str) -> bool
    ensures { result ≡ is_flag word.now }
{
    word == "--serial"
}

// Whether the flag is among the words.
fn has_flag(words: &[String]) -> bool
    ensures { result ≡ list_any is_flag (map string_bytes words.now) }
{
    for word in words {
        if is_flag(word) {
            return true;
        }
    }
    false
}

// The place of the first flag.
pub(crate) fn flag_place(words: &[String]) -> Option<usize>
    ensures { IsFirstFlag (map string_bytes words.now) result }
{
    for (place, word) in words.iter().enumerate() {
        if is_flag(word) {
            return Some(place);
        }
    }
    None
}

// The place of the flag that the command takes.
pub(crate) fn flag_in(command: &str, rest: &[String]) -> Option<usize>
    ensures some { IfSome result
        (λ place. (takes_flag command.now ≡ true) × IsFirstFlag (map string_bytes rest.now) (Some place)) }
    ensures none { IfNone result
        (takes_flag command.now ≡ true → list_any is_flag (map string_bytes rest.now) ≡ false) }
{
    if takes_flag(command) {
        flag_place(rest)
    } else {
        None
    }
}

/// Whether the words ask for a command that runs on threads: one that takes the flag, without it.
/// It takes no memory.
pub fn needs_threads(words: &[String]) -> bool
    ensures { result ≡ needs_threads (map string_bytes words.now) }
{
    if words.len() < 2 {
        return false;
    }
    let (_, rest) = words.split_at(2);
    takes_flag(words[1].as_str()) && !has_flag(rest)
}
