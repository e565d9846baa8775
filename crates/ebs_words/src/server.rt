// The words of a server.
ghost use Rattle.std.specs.Prelude.{◌≡◌, ◌↔◌, ℕ, Some, map, string_bytes};
ghost use Rattle.ebs_words.specs.Spellings.{IsNumber, IsServer};

use crate::values::read_number;

const MOST_PORT: u16 = 65535;

const MOST_WORKERS: u16 = 64;

/// The port and the number of workers that the words of a server spell: `PORT WORKERS`, each in decimal without a sign or a leading zero.
pub fn read_server_words(words: &[String]) -> Option<(u16, u32)>
    ensures { (port workers : ℕ) → (result ≡ Some (port, workers)) ↔ IsServer (map string_bytes words.now) port workers }
{
    match words {
        [first, second] => read_both(first.as_str(), second.as_str()),
        _ => None,
    }
}

fn read_both(first: &str, second: &str) -> Option<(u16, u32)>
    ensures { (port workers : ℕ) → (result ≡ Some (port, workers)) ↔ (IsNumber 65535 first.now port × IsNumber 64 second.now workers) }
{
    let port = read_number(first, MOST_PORT)?;
    let workers = read_number(second, MOST_WORKERS)?;
    Some((port, u32::from(workers)))
}
