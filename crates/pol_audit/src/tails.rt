//! The lines behind the entries of a history, against those that are wanted there.
ghost use Rattle.std.specs.Prelude.{◌≡◌, ◌+◌, ◌<◌, ◌^◌, length, map};
ghost use Rattle.std.specs.Option.{option_map};
ghost use Rattle.pol_audit.specs.Verdict.{first_other, is_line};

// Whether the line is the wanted one, which has its line feed. None is a line that is too long.
#[tactic(auto, using(crate::proofs::Ends::ends_line))]
fn is_line(wanted: &[u8], line: &Option<Vec<u8>>) -> bool
    ensures { result ≡ is_line wanted.now (option_map (λ line. line.items) line.now) }
{
    match (line, wanted.split_last()) {
        (Some(bytes), Some((last, text))) => *last == b'\n' && *text == **bytes,
        _ => false,
    }
}

/// The number of the first line that differs from the wanted ones, is missing or is too many, where the first line has
/// this number. None in place of a line is one that is too long.
pub fn first_other(first: u32, wanted: &[Vec<u8>], lines: &[Option<Vec<u8>>]) -> Option<u32>
    requires { first + length wanted.now < 2 ^ 32 }
    ensures { result ≡ first_other first (map (λ line. line.items) wanted.now)
        (map (option_map (λ line. line.items)) lines.now) }
{
    let mut place = first;
    let mut rest = lines;
    for line in wanted {
        match rest.split_first() {
            Some((found, later)) if is_line(line, found) => rest = later,
            _ => return Some(place),
        }
        place += 1;
    }
    if rest.is_empty() { None } else { Some(place) }
}
