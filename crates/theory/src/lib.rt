//! What is proved of groupings, for every lawful weigher and every lawful table.
#![tactic(auto)]

ghost use Rattle.theory.specs.Theorems.{Unions, Unique, Numbers, RoundsMean, RoundsRefined, RoundsSettle, RecordsRespected, RecordsSettle};
ghost use Rattle.theory.specs.Worked.{Worked};

/// Does nothing: its contract is the theorems.
pub fn theorems()
    ensures unions { Unions }
    ensures unique { Unique }
    ensures numbers { Numbers }
    ensures rounds_mean { RoundsMean }
    ensures rounds_refined { RoundsRefined }
    ensures rounds_settle { RoundsSettle }
    ensures records_respected { RecordsRespected }
    ensures records_settle { RecordsSettle }
    ensures worked { Worked }
{}
