// Two plants sell to two buyers: an hour made call by call, and its listing.
#![tactic(auto)]

mod entries;
mod hour;
mod output;
mod readings;

use book::Book;

fn main(rt: HostRuntime) -> anyhow::Result<()> {
    let mut book = Book::new();
    let mut open = book.open(hour::header()?);
    let rows = entries::enter(&mut open)?;
    // No plant has number 3: the call is refused, and the hour is as it was.
    let sale = open.commit(3, 1, 10);
    let settled = hour::settle(open, &rows)?;
    output::write_hour(&mut rt.stdout(), &settled)?;
    if let Err(refusal) = sale {
        println!(rt; "a sale of plant 3 is {refusal}")?;
    }
    let cost = settled.plant(1)?.cost;
    println!(rt; "the support of plant 1 costs {cost}")?;
    settled.release();
    Ok(())
}
