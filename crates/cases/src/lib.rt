// The worked cases of the value logics and of formulas on plans: what the definitions that the contracts cite say of them.
#![tactic(auto)]

ghost use Rattle.std.specs.Prelude.{◌≡◌, length};
ghost use Rattle.cases.specs.Cases.{cases, CasesHold};

// How many worked cases there are. Each of them holds.
pub fn worked_cases() -> u8
    ensures count { result ≡ length cases }
    ensures hold { CasesHold }
{
    12
}
