//! The histories of the files' scripts, and all their changes.

ghost use Rattle.std.specs.Arc.{arc_value};
ghost use Rattle.check_audits.specs.steps.Auditable.{IsAuditable};

use crate::engines::{audited, run_text};
use crate::judgement::Judgement;
use crate::literal::judge;
use crate::page::Page;
use crate::subject::{Subject, subject_of};
use crate::tally::Tally;
use check_files::texts_of;
use check_runs::walk::{Walk, walks};
use std::io;
use std::io::Print;

/// Prints a text of which two things are said.
fn print_difference<R: Print>(
    rt: &R,
    text: &str,
    said: Judgement,
    wanted: Judgement,
) -> io::Result<()> {
    println!(rt; "of the text\n{text}")?;
    println!(rt; "an audit says: {} {}", said.word(), said.number())?;
    println!(rt; "wanted: {} {}", wanted.word(), wanted.number())
}

/// Compares what is said of a text. The first of a script's that differs is printed.
fn compare<R: Print + AllocGlobal>(
    rt: &R,
    subject: &Subject,
    text: &str,
    tally: &mut Tally,
) -> io::Result<()>
    requires { IsAuditable (arc_value subject.now.schema) subject.now.script }
{
    let said = audited(rt.alloc(), subject, text.as_bytes())?;
    let (schema, script) = (&subject.schema, &subject.script);
    let wanted = judge(rt.alloc(), schema, script, text.as_bytes())?;
    if said == wanted {
        tally.count(wanted);
        return Ok(());
    }
    tally.differ = tally.differ.saturating_add(1);
    if tally.differ == 1 {
        print_difference(rt, text, said, wanted)?;
    }
    Ok(())
}

/// Compares what is said of each of these texts.
fn compare_all<R: Print + AllocGlobal>(
    rt: &R,
    subject: &Subject,
    texts: &[String],
    tally: &mut Tally,
) -> io::Result<()>
    requires { IsAuditable (arc_value subject.now.schema) subject.now.script }
{
    for text in texts {
        compare(rt, subject, text.as_str(), tally)?;
    }
    Ok(())
}

/// Compares what is said of the changes of a text.
fn compare_changes<R: Print + AllocGlobal>(
    rt: &R,
    subject: &Subject,
    text: &str,
    tally: &mut Tally,
) -> io::Result<()>
    requires { IsAuditable (arc_value subject.now.schema) subject.now.script }
{
    let page = Page::new(rt.alloc(), text)?;
    for at in 0..page.count_lines() {
        let texts = page.changes(rt.alloc(), at)?;
        compare_all(rt, subject, &texts, tally)?;
    }
    Ok(())
}

/// Compares what is said of the history of a run in an order, and of its changes.
fn compare_run<R: Print + AllocGlobal>(
    rt: &R,
    subject: &Subject,
    order: u64,
    tally: &mut Tally,
) -> io::Result<()>
    requires { IsAuditable (arc_value subject.now.schema) subject.now.script }
{
    let bytes = run_text(rt.alloc(), subject, order)?;
    let text = str::from_utf8(&bytes).unwrap_or("");
    compare(rt, subject, text, tally)?;
    compare_changes(rt, subject, text, tally)
}

/// Compares what is said of the histories of a script in so many orders.
fn compare_runs<R: Print + AllocGlobal>(rt: &R, subject: &Subject, orders: u64) -> io::Result<Tally>
    requires { IsAuditable (arc_value subject.now.schema) subject.now.script }
{
    let mut tally = Tally::default();
    for order in 0..orders {
        compare_run(rt, subject, order, &mut tally)?;
    }
    Ok(tally)
}

/// Prints what came of a script's histories.
fn print_tally<R: Print>(rt: &R, name: &str, tally: Tally) -> io::Result<()> {
    println!(rt;
        "{name}: {} compared, {} sound, {} wrong, {} short, {} tail, {} bad, {} differ",
        tally.compared(),
        tally.sound,
        tally.wrong,
        tally.short,
        tally.tail,
        tally.bad,
        tally.differ
    )
}

/// Compares what is said of the histories of a walk's script, and prints what came of it.
fn compare_walk<R: Print + AllocGlobal>(rt: &R, walk: &Walk, total: &mut Tally) -> io::Result<()> {
    let Some(subject) = subject_of(rt.alloc(), walk)? else {
        total.differ = total.differ.saturating_add(1);
        println!(rt; "{}: it is refused", walk.name.as_str())?;
        return Ok(());
    };
    let tally = compare_runs(rt, &subject, walk.orders)?;
    total.add(tally);
    print_tally(rt, walk.name.as_str(), tally)
}

/// Compares what is said of the histories of a text's scripts, and prints what came of each.
fn compare_walks<R: Print + AllocGlobal>(rt: &R, text: &str, total: &mut Tally) -> io::Result<()> {
    for walk in &walks(rt.alloc(), text)? {
        compare_walk(rt, walk, total)?;
    }
    Ok(())
}

/// Compares what is said of the histories of the scripts of each file that the words name, and prints what came of each; whether
/// nothing differs.
pub fn run<R: std::rt::Files + Print + AllocGlobal>(rt: &R, words: &[String]) -> io::Result<bool> {
    let (texts, unread) = texts_of(rt, words)?;
    let mut total = Tally::default();
    total.differ = unread;
    for text in &texts {
        compare_walks(rt, text.as_str(), &mut total)?;
    }
    println!(rt;
        "{} texts of histories, {} differences",
        total.compared(),
        total.differ
    )?;
    Ok(total.differ == 0)
}
