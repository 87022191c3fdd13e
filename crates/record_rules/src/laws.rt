//! What holds of every closing, as statements about the definitions: these functions do nothing at run time.
ghost use Rattle.std.specs.Prelude.{ℕ, List};
ghost use Rattle.pages.specs.declared.page.Page.{Page as AnyPage};
ghost use Rattle.record_rules.specs.Filing.{blank_book};
ghost use Rattle.record_rules.specs.Closing.{closing};
ghost use Rattle.record_rules.specs.Ecma.{ByTheStandard};
ghost use Rattle.record_rules.specs.Runs.{run, ExportsPlaced, OrdersAgree};

/// Each taken export has its one row.
#[tactic(auto, using(crate::proofs::Placing::exports_placed))]
pub fn exports_are_placed()
    ensures { (text : List ℕ) (ps : List AnyPage) → ExportsPlaced text ps (closing text (run text ps blank_book)) }
{}

/// The order of pages does not matter.
#[tactic(auto, using(crate::proofs::Orders::orders_agree))]
pub fn orders_agree()
    ensures { (text : List ℕ) (ps : List AnyPage) → OrdersAgree text ps (closing text (run text ps blank_book)) }
{}

/// The rows are the entries of ECMA-262.
pub fn standard_entries()
    ensures { (text : List ℕ) (ps : List AnyPage) → ByTheStandard text ps (closing text (run text ps blank_book)) }
{}
