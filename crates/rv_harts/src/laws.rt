ghost use Rattle.rv_harts.specs.BarrelLaws.{SlotLaw, ApartLaw, TwoLaw, RowsLaw, IsolationLaw};

/// Two harts never meet in a stage: a cell of hart h stands in stage s of row n only where n - s is
/// even for h 0 and odd for h 1. So a row of both shows each as it is by itself, and no hart's rows
/// depend on the other's image. It does nothing: its contract is what it is for.
pub fn harts_are_apart()
    ensures slots { SlotLaw }
    ensures apart { ApartLaw }
    ensures two { TwoLaw }
    ensures rows { RowsLaw }
    ensures isolated { IsolationLaw }
{}
