// Writing out what a table's reading answers.
use crate::asked::AskedStep;
use model::Plan;
use reading::limits::{MOST_MODEL_WORDS, MOST_ROWS};
use reading::refusals::Refusal;
use std::io;
use steps::{FactPlace, Step};
use words::RowNo;

// What the entries of a table of starts hold as it is lent.
const AS_LENT: u32 = 9999;

fn refusal(rt: &impl Print, e: Refusal) -> io::Result<()> {
    print!(rt; "refused {} at {}", u32::from(e.reason), e.position)
}

// The starts that were noted.
fn noted(rt: &impl Print, starts: &[u32]) -> io::Result<()> {
    for start in starts.iter().take_while(|start| **start != AS_LENT) {
        print!(rt; " {start}")?;
    }
    Ok(())
}

// How much a good model holds, the starts of its rows and their lengths, read again from there.
fn good(rt: &impl Print, plan: Plan) -> io::Result<()> {
    print!(rt; "{} variables, {} rows;", plan.variables, plan.rows)?;
    for start in &plan.starts[..plan.rows] {
        let size = model::row_size(plan.words, *start as usize);
        print!(rt; " {start}+{size}")?;
    }
    Ok(())
}

// A model's answer; the starts of the rows that were begun, with their lengths where the model is good.
pub fn table(rt: &impl Print, s: &[i32]) -> io::Result<()> {
    if s.len() > MOST_MODEL_WORDS {
        return Ok(());
    }
    let mut starts = [AS_LENT; MOST_ROWS];
    match model::read_model(s, &mut starts) {
        Ok(_) => good(rt, Plan::of(s, &starts)),
        Err(e) => {
            refusal(rt, e)?;
            print!(rt; ";")?;
            noted(rt, &starts)
        }
    }
}

fn place(rt: &impl Print, f: FactPlace) -> io::Result<()> {
    print!(rt;
        "{} premises at {}, {} consequents at {}",
        f.premises.many, f.premises.from, f.consequent.many, f.consequent.from
    )
}

fn inference(rt: &impl Print, row: RowNo, f: FactPlace) -> io::Result<()> {
    print!(rt; "inference, row {}, ", row.0)?;
    place(rt, f)
}

fn parts(rt: &impl Print, t: Step) -> io::Result<()> {
    match t {
        Step::Inference(row, f) => inference(rt, row, f),
        Step::Deduction(f, hints) => {
            print!(rt; "deduction, ")?;
            place(rt, f)?;
            print!(rt; ", {} hints at {}", hints.many, hints.from)
        }
        Step::NoAssignment(cited) => print!(rt; "no assignment, fact {}", cited.0),
        Step::NeverBelow(variable, least, cited) => print!(rt;
            "variable {} never below {least}, fact {}",
            variable.0, cited.0
        ),
    }
}

// What the step is, and the position after it.
pub fn step(rt: &impl Print, asked: AskedStep) -> io::Result<()> {
    match asked.read() {
        Ok((t, next)) => {
            parts(rt, t)?;
            print!(rt; "; {next}")
        }
        Err(e) => refusal(rt, e),
    }
}

// The place of the fact that a step, an inference, makes: read again.
pub fn again(rt: &impl Print, asked: AskedStep) -> io::Result<()> {
    let Ok((Step::Inference(row, _), _)) = asked.read() else {
        return Ok(());
    };
    inference(rt, row, steps::made_fact_at(asked.log, asked.at))
}
