//! A word of the board: a number and a state in 64 bits, since a word is stored and loaded in one step.
ghost use Rattle.std.specs.Prelude.{◌≡◌, ◌<◌, ◌^◌};
ghost use Rattle.pol_board.specs.Words.{code_of, state_at, word_of, number_of};

use mtp_codes::State;

/// How many codes of states a number leaves room for.
const CODES: u64 = 262_144;

/// The word that says this number and this state, with the code 0 where no state was reported.
pub(crate) fn pack(number: u64, state: Option<State>) -> u64
    requires { number < 2 ^ 46 }
    ensures { result ≡ word_of number state }
{
    let code = match state {
        None => 0,
        Some(state) => u64::from(state.code()),
    };
    number * CODES + code
}

/// The number and the state that a word says.
pub(crate) fn unpack(word: u64) -> (u64, Option<State>)
    ensures number { result.0 ≡ number_of word }
    ensures state { result.1 ≡ state_at word }
{
    let code = (word % CODES) as u32;
    (word / CODES, State::of_code(code))
}
