// What a vector program counts, and the lines that it writes.
ghost use Rattle.std.specs.Prelude.{◌≡◌, [], map, take, if◌then◌else◌};
ghost use Rattle.replay.specs.Counts.{more_by, more_of};

use std::io;

// What is said of a record: the kind that it counts as, mostly its operation, and whether its answer is right.
#[derive(Clone, Copy)]
pub struct Verdict {
    pub kind: u64,
    pub right: bool,
}

// No program names more kinds.
const MOST_KINDS: usize = 12;

// The records seen, those that are wrong, and the kinds by their names, with how many there are of each. The first `named` kinds have
// names. The kinds are an array, since a list that is allocated is not `Copy`.
#[derive(Clone, Copy)]
pub struct Tally<'a> {
    pub seen: u64,
    pub wrong: u64,
    pub kinds: [(&'a str, u64); MOST_KINDS],
    pub named: usize,
}

impl<'a> Tally<'a> {
    // No kind has a name yet.
    pub fn new() -> Tally<'a>
        ensures none { (result.seen ≡ 0) × (result.wrong ≡ 0) }
        ensures kinds { take result.named result.kinds ≡ [] }
    {
        Tally::of(&[])
    }

    // The kinds of these names, of which the first twelve are kept, none of them counted yet.
    #[tactic(auto, using(crate::proofs::Naming::one_more))]
    pub fn of(names: &[&'a str]) -> Tally<'a>
        ensures none { (result.seen ≡ 0) × (result.wrong ≡ 0) }
        ensures kinds { take result.named result.kinds ≡ map (λ name. (name, 0)) (take 12 names.now) }
    {
        let named = names.len().min(MOST_KINDS);
        let mut kinds = [("", 0); MOST_KINDS];
        for (k, name) in names[..named].iter().enumerate() {
            kinds[k] = (*name, 0);
        }
        Tally {
            seen: 0,
            wrong: 0,
            kinds,
            named,
        }
    }

    // Counts a record, right or wrong. One of a kind that has no name counts as none.
    #[tactic(auto, using(crate::proofs::Counting::one_more_named, crate::proofs::Counting::none_more_named))]
    pub fn count(&mut self, verdict: Verdict)
        ensures seen { self.new.seen ≡ more_by 1 self.old.seen }
        ensures wrong { self.new.wrong ≡ more_by (if verdict.right then 0 else 1) self.old.wrong }
        ensures kinds { take self.new.named self.new.kinds ≡ more_of verdict.kind (take self.old.named self.old.kinds) }
    {
        self.seen = self.seen.wrapping_add(1);
        self.wrong = self.wrong.wrapping_add(u64::from(!verdict.right));
        let k = verdict.kind as usize;
        let kinds = &mut self.kinds[..];
        if k < kinds.len() {
            kinds[k].1 = kinds[k].1.wrapping_add(1);
        }
    }

    // Counts a record that the file does not hold whole, which is wrong.
    pub fn count_cut(&mut self)
        ensures seen { self.new.seen ≡ more_by 1 self.old.seen }
        ensures wrong { self.new.wrong ≡ more_by 1 self.old.wrong }
        ensures kinds { (self.new.kinds ≡ self.old.kinds) × (self.new.named ≡ self.old.named) }
    {
        self.seen = self.seen.wrapping_add(1);
        self.wrong = self.wrong.wrapping_add(1);
    }

    // What a program writes: how many of each kind there were, how many records, and how many of these are wrong.
    pub fn report(&self, rt: &impl Print) -> io::Result<()> {
        for (name, n) in self.kinds.iter().take(self.named) {
            println!(rt; "{name} {n}")?;
        }
        println!(rt; "{} vectors, {} wrong", self.seen, self.wrong)
    }
}
