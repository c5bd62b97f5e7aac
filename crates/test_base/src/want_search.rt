use rb_base::Height;
use rb_want_requests::{Aim, Judge, SearchOutcome, StepJudgement, search};
use std::alloc::AllocError;
use std::process::Abort;
use std::test::Fail;

/// A rule by which steps are accepted.
#[derive(Clone, Copy, Debug)]
enum Rule {
    /// Every step.
    All,
    /// Those of at most so many heights.
    Within(u64),
    /// Those that don't pass over this height, where all validators change.
    NotOver(u64),
    /// Those to heights from this one on are given; they are accepted within so many heights.
    GivenFrom(u64, u64),
    /// None.
    Nothing,
}

/// A rule, and the steps of which answers are there.
#[derive(Drop)]
struct Toy {
    rule: Rule,
    steps: Vec<(u64, u64)>,
}

fn judged(rule: Rule, trusted: u64, height: u64) -> StepJudgement {
    let is_accepted = match rule {
        Rule::All => true,
        Rule::Within(most) => height <= trusted.saturating_add(most),
        Rule::NotOver(change) => trusted >= change || height <= change,
        Rule::GivenFrom(lowest, _) if height < lowest => return StepJudgement::Gone,
        Rule::GivenFrom(_, most) => height <= trusted.saturating_add(most),
        Rule::Nothing => return StepJudgement::Never,
    };
    if is_accepted {
        StepJudgement::Accepted
    } else {
        StepJudgement::Refused
    }
}

impl Judge for Toy {
    ghost use Rattle.std.specs.Prelude.{⊤};

    ghost judges = { λ _ _ _ _. ⊤ };

    fn judge(&self, trusted: Height, height: Height) -> Result<StepJudgement, AllocError> {
        let (trusted, height) = (trusted.get(), height.get());
        for (from, to) in &self.steps {
            if *from == trusted && *to == height {
                return Ok(judged(self.rule, trusted, height));
            }
        }
        Ok(StepJudgement::Unknown)
    }
}

/// A rule, the first trusted height, the aim, where the search ends (none: stuck), and how many steps it may ask for.
const ROWS: &[(Rule, u64, (u64, u64), Option<u64>, usize)] = &[
    (Rule::All, 1, (100_000, 100_000), Some(100_000), 1),
    (Rule::All, 1, (50, 100_000), Some(100_000), 1),
    (Rule::All, 100, (50, 90), Some(100), 0),
    (
        Rule::NotOver(57_122),
        20_000,
        (119_998, 119_998),
        Some(119_998),
        20,
    ),
    (
        Rule::NotOver(57_122),
        20_000,
        (50_000, 119_998),
        Some(51_249),
        5,
    ),
    (
        Rule::NotOver(57_122),
        20_000,
        (119_998, 119_998),
        Some(119_998),
        19,
    ),
    (
        Rule::Within(30_000),
        1,
        (100_000, 100_000),
        Some(100_000),
        3 * 18 + 1,
    ),
    (Rule::Within(1), 1, (6, 6), Some(6), 5 * 4),
    (
        Rule::GivenFrom(60_000, 70_000),
        1,
        (100_000, 100_000),
        Some(100_000),
        19,
    ),
    (
        Rule::GivenFrom(60_000, 50_000),
        1,
        (100_000, 100_000),
        None,
        18,
    ),
    (Rule::Nothing, 1, (100_000, 100_000), None, 1),
];

fn height(number: u64) -> Result<Height, Fail> {
    Ok(Height::new(number).ok_or("height")?)
}

/// The toy with one answer more: where the search ends, and whether it does.
fn step(toy: &mut Toy, first: Height, aim: &Aim) -> Result<Option<Option<u64>>, AllocError> {
    match search(toy, first, aim)? {
        SearchOutcome::Asks(question) => {
            let asked = (question.trusted.get(), question.height.get());
            toy.steps.push(asked)?;
            Ok(None)
        }
        SearchOutcome::Reached(reached) => Ok(Some(Some(reached.get()))),
        SearchOutcome::Stuck { .. } => Ok(Some(None)),
    }
}

/// Where the search ends; none where it is stuck, or asks for more than a thousand steps.
fn end_of(toy: &mut Toy, first: Height, aim: &Aim) -> Result<Option<u64>, AllocError> {
    for _ in 0..1000 {
        if let Some(end) = step(toy, first, aim)? {
            return Ok(end);
        }
    }
    Ok(None)
}

fn aim_of((least, most): (u64, u64)) -> Result<Aim, Fail> {
    Ok(Aim {
        least: height(least)?,
        most: height(most)?,
    })
}

fn check_search(
    rt: &impl Abort,
    toy: &mut Toy,
    first: Height,
    aim: &Aim,
    wanted: Option<u64>,
    bound: usize,
) -> Result<(), AllocError> {
    let end = end_of(toy, first, aim)?;
    let (rule, asked) = (toy.rule, toy.steps.len());
    assert!(rt;
        end == wanted && asked <= bound,
        "{rule:?}: {end:?}, asks for {asked}"
    );
    Ok(())
}

#[test]
fn searches_by_halves(rt: HostRuntime) -> Result<(), Fail> {
    for (rule, first, aim, wanted, bound) in ROWS {
        let mut toy = Toy {
            rule: *rule,
            steps: Vec::new(rt.alloc()),
        };
        check_search(
            &rt,
            &mut toy,
            height(*first)?,
            &aim_of(*aim)?,
            *wanted,
            *bound,
        )?;
    }
    Ok(())
}
