//! All walks of the files, each script of a walk in all orders.

use crate::played::Played;
use crate::tally::Tally;
use crate::walk::{Walk, walks};
use check_files::texts_of;
use mj_schema::Schema;
use std::io;
use std::io::Print;
use std::sync::Arc;

/// Compares the run of a text in an order, if it is a script. The first run of a walk that differs is printed.
fn compare<R: Print + AllocGlobal>(
    rt: &R,
    schema: &Arc<Schema>,
    text: &str,
    order: u64,
    tally: &mut Tally,
) -> io::Result<()> {
    tally.texts = tally.texts.saturating_add(1);
    let Some(played) = Played::new(rt.alloc(), schema, text, order)? else {
        return Ok(());
    };
    let is_right = played.is_right(rt.alloc())?;
    if !is_right && tally.differ == 0 {
        println!(rt; "the script, by order {order}:\n{text}")?;
        played.print(rt, schema)?;
    }
    tally.add_script(played.events.as_slice(), is_right)?;
    Ok(())
}

/// Compares the runs of a text in all orders of its walk.
fn compare_orders<R: Print + AllocGlobal>(
    rt: &R,
    schema: &Arc<Schema>,
    walk: &Walk,
    text: &str,
    tally: &mut Tally,
) -> io::Result<()> {
    for order in 0..walk.orders {
        compare(rt, schema, text, order, tally)?;
    }
    Ok(())
}

/// Compares the runs of all texts of a walk with so many lines behind the first ones.
fn compare_texts<R: Print + AllocGlobal>(
    rt: &R,
    schema: &Arc<Schema>,
    walk: &Walk,
    lines: u32,
    tally: &mut Tally,
) -> io::Result<()> {
    for number in 0..walk.count(lines) {
        let text = walk.text(rt.alloc(), lines, number)?;
        compare_orders(rt, schema, walk, text.as_str(), tally)?;
    }
    Ok(())
}

/// Compares the runs of all texts of a walk.
fn compare_walk<R: Print + AllocGlobal>(rt: &R, schema: Schema, walk: &Walk) -> io::Result<Tally> {
    let schema = Arc::new(rt.alloc(), schema)?;
    let mut tally = Tally::new(rt.alloc());
    for lines in 0..=walk.most {
        compare_texts(rt, &schema, walk, lines, &mut tally)?;
    }
    Ok(tally)
}

/// Prints what came of a walk.
fn print_tally<R: Print>(rt: &R, name: &str, tally: &Tally) -> io::Result<()> {
    println!(rt;
        "{name}: {} texts, {} scripts, {} events, {} differ",
        tally.texts, tally.scripts, tally.events, tally.differ
    )?;
    for count in &tally.counts {
        println!(rt; "  {} {}", count.times, count.reply)?;
    }
    Ok(())
}

/// Compares the walks of a text, and prints what came of each.
fn compare_walks<R: Print + AllocGlobal>(rt: &R, text: &str, total: &mut Tally) -> io::Result<()> {
    for walk in &walks(rt.alloc(), text)? {
        match walk.schema(rt.alloc())? {
            Some(schema) => {
                let tally = compare_walk(rt, schema, walk)?;
                print_tally(rt, walk.name.as_str(), &tally)?;
                total.add(&tally);
            }
            None => {
                total.differ = total.differ.saturating_add(1);
                println!(rt; "{}: its definitions are refused", walk.name.as_str())?;
            }
        }
    }
    Ok(())
}

/// Compares the walks of each file that the words name, and prints what came of each; whether nothing differs.
pub fn run<R: std::rt::Files + Print + AllocGlobal>(rt: &R, words: &[String]) -> io::Result<bool> {
    let (texts, unread) = texts_of(rt, words)?;
    let mut tally = Tally::new(rt.alloc());
    tally.differ = unread;
    for text in &texts {
        compare_walks(rt, text.as_str(), &mut tally)?;
    }
    println!(rt; "{} scripts, {} differences", tally.scripts, tally.differ)?;
    Ok(tally.differ == 0)
}
