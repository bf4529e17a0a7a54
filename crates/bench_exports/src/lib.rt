// The echoes, which the speed measurements time beside the library's calls: each takes a state by value and hands it back beside an
// answer, as the calls by value do, and does nothing else.
// Kept: no generic crosses to C, and bench/validators.rs calls each echo by its name.
#![tactic(auto)]

ghost use Rattle.std.specs.Prelude.{◌≡◌};
ghost use Rattle.answers.specs.Answers.{Passed};
ghost use Rattle.moatbetony.specs.Plain.{plain_pair_outcome, plain_home_outcome};

use home_validator::HomeValidator;
use moatbetony::{PlainHomeOutcome, PlainPairOutcome};
use pair_validator::PairValidator;

// The pair validator's echo.
#[unsafe(no_mangle)]
pub extern "C" fn bench_pair_echo(state: PairValidator) -> PlainPairOutcome
    ensures { result ≡ plain_pair_outcome Passed state }
{
    PlainPairOutcome {
        answer: Ok(()).into(),
        state,
    }
}

// The home validator's echo.
#[unsafe(no_mangle)]
pub extern "C" fn bench_home_echo(state: HomeValidator) -> PlainHomeOutcome
    ensures { result ≡ plain_home_outcome Passed state }
{
    PlainHomeOutcome {
        answer: Ok(()).into(),
        state,
    }
}
