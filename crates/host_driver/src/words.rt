//! The words of the command line.

ghost use Rattle.edge_io.specs.Words.{words_of};
ghost use Rattle.host_driver.specs.Words.{IsDriveChoice, drive_choice};
ghost use Rattle.std.specs.Prelude.{◌≡◌, ◌∷◌, []};

use edge_io::number;

/// What the words of the command line ask for.
#[derive(Clone, Copy, Debug, PartialEq, Eq)]
pub(crate) struct DriveChoice {
    /// The number of the host that is driven.
    pub(crate) host: u64,
    /// The most bytes that its driver takes.
    pub(crate) most: u64,
}

/// How many digits a host's number may have, and how many a number of bytes.
const HOST_DIGITS: usize = 2;

const MOST_DIGITS: usize = 18;

/// What the words ask for: a host's number of 1 or 2 decimal digits and a number of bytes of 1 to 18. All else is refused.
#[tactic(auto, using(crate::proofs::Choices::choice_found))]
pub(crate) fn chosen(words: &[String]) -> Option<DriveChoice>
    ensures { IsDriveChoice (words_of words.now) result }
{
    found_in(words)
}

fn found_in(words: &[String]) -> Option<DriveChoice>
    ensures { result ≡ drive_choice (words_of words.now) }
{
    match words.len() {
        2 => both(words[0].as_bytes(), words[1].as_bytes()),
        _ => None,
    }
}

/// What two words ask for.
fn both(host: &[u8], most: &[u8]) -> Option<DriveChoice>
    ensures { result ≡ drive_choice (host.now ∷ most.now ∷ []) }
{
    match (number(host, HOST_DIGITS), number(most, MOST_DIGITS)) {
        (Some(host), Some(most)) => Some(DriveChoice { host, most }),
        _ => None,
    }
}
