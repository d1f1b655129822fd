//! Which word of a command line names the file that the capture goes to.
ghost use Rattle.std.specs.Prelude.{◌≡◌, map, string_bytes};
ghost use Rattle.boot_words.specs.Captures.{capture_place, is_capture, is_capture_with_name};

fn is_capture(word: &str) -> bool
    ensures { result ≡ is_capture word.now }
{
    word == "--capture"
}

fn is_capture_with_name(word: &str) -> bool
    ensures { result ≡ is_capture_with_name word.now }
{
    word.as_bytes().starts_with(b"--capture=")
}

fn capture_place(words: &[String]) -> Option<usize>
    ensures { result ≡ capture_place (map string_bytes words.now) }
{
    let mut place = 0;
    while place < words.len() {
        let word = words[place].as_str();
        if is_capture(word) {
            if place + 1 == words.len() {
                return None;
            }
            return Some(place + 1);
        }
        if is_capture_with_name(word) {
            return Some(place);
        }
        place += 1;
    }
    None
}

/// The word that names the capture's file: the one after the first `--capture`, or the first that begins with
/// `--capture=`, in which the name follows the `=`. The words may be no command line.
pub fn capture_name(words: &Vec<String>) -> Option<usize>
    ensures { result ≡ capture_place (map string_bytes words.now.items) }
{
    capture_place(words.as_slice())
}
