//! Shelves, which answer the newest edition.
ghost use Rattle.std.specs.Prelude.{◌≡◌, ◌<◌, ℕ, List, [], ◌++◌, ◌∷◌, Option, Some, None, vec_len, IfOk, OnOk, OnErr, IfSome, MatchResult};
ghost use Rattle.std.specs.Arc.{arc_value};
ghost use Rattle.edr_edition.specs.Values.{EditionValue};
ghost use Rattle.edr_edition.specs.Shelves.{IsShelfList, BeginsSeen, EndsWith, TakenGrew, IsNext, given, edition_after, taken_of, stepped};

use crate::editions::Edition;
use edr_base::OutOfMemory;
use std::alloc::Global;
use std::marker::Model;
use std::sync::Arc;

/// Where the newest edition is taken.
pub trait Editions {
    /// The editions that were seen, in the order of their numbers, which ascend by one.
    ghost seen: { Self → List EditionValue };

    /// The numbers of the editions that the takes answered, in that order, where they are told.
    ghost taken: { Self → Option (List ℕ) };

    /// All its editions, where nobody puts editions on it while they are taken; None where others may. What was seen is the
    /// first of them.
    ghost stock: { Self → Option (List EditionValue) } = { λ _. None };

    /// The newest edition, which is the last that was seen then. What was seen before stays seen.
    ///
    /// After want of memory, its only error, what was taken is as it was, and what was seen is as it was or has grown.
    fn take(&mut self) -> Result<Arc<Edition>, OutOfMemory>
        ensures grows { BeginsSeen (seen self.old) (seen self.new) }
        ensures last { IfOk result (λ edition. EndsWith (seen self.new) (arc_value edition)) }
        ensures ascending { IsShelfList (seen self.new) }
        ensures taken { MatchResult result
            (λ edition. TakenGrew (taken self.old) (taken self.new) ((arc_value edition).number ∷ []))
            (λ _. TakenGrew (taken self.old) (taken self.new) []) }
        ensures untaken { OnErr result (taken self.new ≡ taken self.old) }
        ensures stock { stock self.new ≡ stock self.old }
        ensures within { IfSome (stock self.new) (λ all. BeginsSeen (seen self.new) all) };
}

// An edition that is handed out as often as it is asked for. Contracts see the edition.
#[derive(Drop)]
struct SharedEdition {
    edition: Arc<Edition>,
}

impl Model for SharedEdition {
    ghost use Rattle.std.specs.Arc.{arc_value};
    ghost use Rattle.edr_edition.specs.Values.{EditionValue};

    ghost Value = { EditionValue };

    ghost view = { λ shared. arc_value shared.edition };
}

impl SharedEdition {
    // An edition to be handed out.
    fn of(alloc: Global, edition: Edition) -> Result<SharedEdition, OutOfMemory>
        ensures { IfOk result (λ shared. shared ≡ edition) }
    {
        Ok(SharedEdition {
            edition: Arc::new(alloc, edition)?,
        })
    }

    // The edition. It takes no memory; its only error is that it was handed out too often to be counted.
    fn edition(&self) -> Result<Arc<Edition>, OutOfMemory>
        ensures { IfOk result (λ edition. arc_value edition ≡ self.now) }
    {
        Ok(Arc::try_clone(&self.edition)?)
    }
}

// Editions to be handed out.
fn shared(alloc: Global, editions: Vec<Edition>) -> Result<Vec<SharedEdition>, OutOfMemory>
    ensures { IfOk result (λ shared. shared.items ≡ editions.items) }
{
    let mut all = Vec::new(alloc);
    for edition in editions {
        all.push(SharedEdition::of(alloc, edition)?)?;
    }
    Ok(all)
}

/// A shelf whose owner puts the next edition on it. Contracts see the list of all its editions.
///
/// It doesn't tell which editions were taken. Each edition stays in memory as long as the shelf does.
#[derive(Drop)]
pub struct LocalShelf {
    editions: Vec<SharedEdition>,
}

impl Model for LocalShelf {
    ghost use Rattle.std.specs.Prelude.{List};
    ghost use Rattle.edr_edition.specs.Values.{EditionValue};
    ghost use Rattle.edr_edition.specs.Shelves.{IsStocked};

    ghost Value = { List EditionValue };

    ghost view = { λ shelf. shelf.editions.items };

    ghost invariant = { λ shelf. IsStocked shelf.editions.items };
}

impl LocalShelf {
    /// The shelf with a first edition.
    #[tactic(auto, using(crate::proofs::ShelfLaws::one_stands))]
    pub fn of(alloc: Global, first: Edition) -> Result<LocalShelf, OutOfMemory>
        ensures { IfOk result (λ shelf. shelf ≡ first ∷ []) }
    {
        let mut editions = Vec::new(alloc);
        editions.push(SharedEdition::of(alloc, first)?)?;
        Ok(LocalShelf { editions })
    }

    /// Puts the next edition on it. After want of memory, its only error, it is as it was, and the edition is given up.
    #[tactic(auto, using(crate::proofs::ShelfLaws::next_stands))]
    pub fn advance(&mut self, alloc: Global, next: Edition) -> Result<(), OutOfMemory>
        requires { IsNext self.old next }
        ensures put { OnOk result (self.new ≡ self.old ++ next ∷ []) }
        ensures kept { OnErr result (self.new ≡ self.old) }
    {
        self.editions.push(SharedEdition::of(alloc, next)?)?;
        Ok(())
    }
}

impl Editions for LocalShelf {
    ghost seen = { λ shelf. shelf };

    ghost taken = { λ _. None };

    ghost stock = { λ shelf. Some shelf };

    /// The last edition that was put on it. It takes no memory; its only error is that the edition was handed out too often
    /// to be counted.
    fn take(&mut self) -> Result<Arc<Edition>, OutOfMemory>
        ensures grows { BeginsSeen self.old self.new }
        ensures last { IfOk result (λ edition. EndsWith self.new (arc_value edition)) }
        ensures ascending { IsShelfList self.new }
        ensures taken { MatchResult result
            (λ edition. TakenGrew None None ((arc_value edition).number ∷ []))
            (λ _. TakenGrew None None []) }
        ensures untaken { OnErr result (⟦<LocalShelf as Editions>⟧.taken self.new ≡ ⟦<LocalShelf as Editions>⟧.taken self.old) }
        ensures stock { Some self.new ≡ Some self.old }
        ensures within { IfSome (Some self.new) (λ all. BeginsSeen self.new all) }
        ensures kept { self.new ≡ self.old }
    {
        self.editions[self.editions.len() - 1].edition()
    }
}

/// A shelf that gives one edition after another, and then the last again.
///
/// It tells which editions were taken until it has answered 18,446,744,073,709,551,615 times.
#[derive(Drop)]
pub struct SteppedShelf {
    editions: Vec<SharedEdition>,
    answered: u64,
}

impl Model for SteppedShelf {
    ghost use Rattle.edr_edition.specs.Shelves.{IsStocked, SteppedValue};

    ghost Value = { SteppedValue };

    ghost view = { λ shelf. record { editions = shelf.editions.items; answered = shelf.answered } };

    ghost invariant = { λ shelf. IsStocked shelf.editions.items };
}

impl SteppedShelf {
    /// The shelf of some editions, at least one, whose numbers ascend by one. It has answered none yet.
    pub fn of(alloc: Global, editions: Vec<Edition>) -> Result<SteppedShelf, OutOfMemory>
        requires some { 0 < vec_len editions }
        requires ascending { IsShelfList editions.items }
        ensures { IfOk result (λ shelf. shelf ≡ record { editions = editions.items; answered = 0 }) }
    {
        Ok(SteppedShelf {
            editions: shared(alloc, editions)?,
            answered: 0,
        })
    }

    // The edition that its next take answers.
    fn next(&self) -> Result<Arc<Edition>, OutOfMemory>
        ensures { IfOk result (λ edition. arc_value edition ≡ edition_after self.now.answered self.now.editions) }
    {
        let last = self.editions.len() - 1;
        let place = if self.answered < last as u64 {
            self.answered as usize
        } else {
            last
        };
        self.editions[place].edition()
    }
}

impl Editions for SteppedShelf {
    ghost seen = { given };

    ghost taken = { taken_of };

    ghost stock = { λ shelf. Some shelf.editions };

    /// The next edition, or the last again where none is left. It takes no memory; its only error is that the edition was
    /// handed out too often to be counted.
    #[tactic(auto, using(crate::proofs::ShelfLaws::first_ascend, crate::proofs::ShelfLaws::given_within))]
    fn take(&mut self) -> Result<Arc<Edition>, OutOfMemory>
        ensures grows { BeginsSeen (given self.old) (given self.new) }
        ensures last { IfOk result (λ edition. EndsWith (given self.new) (arc_value edition)) }
        ensures ascending { IsShelfList (given self.new) }
        ensures taken { MatchResult result
            (λ edition. TakenGrew (taken_of self.old) (taken_of self.new) ((arc_value edition).number ∷ []))
            (λ _. TakenGrew (taken_of self.old) (taken_of self.new) []) }
        ensures untaken { OnErr result (taken_of self.new ≡ taken_of self.old) }
        ensures stock { Some self.new.editions ≡ Some self.old.editions }
        ensures within { IfSome (Some self.new.editions) (λ all. BeginsSeen (given self.new) all) }
        ensures answer { IfOk result (λ edition. arc_value edition ≡ edition_after self.old.answered self.old.editions) }
        ensures step { OnOk result (self.new ≡ stepped self.old) }
        ensures kept { OnErr result (self.new ≡ self.old) }
    {
        let edition = self.next()?;
        self.answered = self.answered.saturating_add(1);
        Ok(edition)
    }
}
