//! Which lines are questions.
ghost use Rattle.std.specs.Prelude.{◌≡◌, ◌≤◌, length, not};
ghost use Rattle.std.specs.List.{position, position_or_len};
ghost use Rattle.json.specs.Word.{is_space};
ghost use Rattle.question_lines.specs.Front.{behind_blanks, is_question, opens_with_ask};

fn is_blank(byte: u8) -> bool
    ensures { result ≡ is_space byte }
{
    byte == b' ' || byte == b'\t' || byte == b'\n' || byte == b'\r'
}

fn first_other(bytes: &[u8]) -> Option<usize>
    ensures { result ≡ position (λ byte. not (is_space byte)) bytes.now }
{
    bytes.iter().position(|byte| !is_blank(*byte))
}

// How many blanks the bytes begin with.
#[tactic(auto, using(event_json::proofs::Places::place_or_length, event_json::proofs::Places::place_within))]
fn blanks(bytes: &[u8]) -> usize
    ensures count { result ≡ position_or_len (λ byte. not (is_space byte)) bytes.now }
    ensures within { result ≤ length bytes.now }
{
    first_other(bytes).unwrap_or(bytes.len())
}

// What comes behind the blanks that the bytes begin with.
fn behind_blanks(bytes: &[u8]) -> &[u8]
    ensures { result.now ≡ behind_blanks bytes.now }
{
    &bytes[blanks(bytes)..]
}

fn opens_with_ask(bytes: &[u8]) -> bool
    ensures { result ≡ opens_with_ask bytes.now }
{
    match bytes {
        [b'{', rest @ ..] => behind_blanks(rest).starts_with(b"\"ask\""),
        _ => false,
    }
}

/// Whether a line asks, by its first bytes: behind blanks an opening brace, and behind blanks the key `ask`. It needn't
/// be a question that [`read_question`](crate::read_question) reads.
#[tactic(auto, unfolding(crate::specs::Front::is_question))]
pub fn is_question(line: &[u8]) -> bool
    ensures { result ≡ is_question line.now }
{
    opens_with_ask(behind_blanks(line))
}
