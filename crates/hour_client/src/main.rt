// A client of the book: sells ahead, closes, reads, settles, and asks for figures.
#![tactic(auto)]

mod lent;
mod sale;
mod sales;
mod tariffs;

use book::{Book, BookRefusal, Header, PlantFigures};
use std::io;

fn figures() -> Result<(u128, PlantFigures), BookRefusal> {
    let header = Header::new(1_000, 10_000, 200, 0, 0)?;
    let mut book = Book::new();
    let cost = sale::support_cost(&mut book, header)?;
    let plant = tariffs::plant(&mut book, header)?;
    tariffs::let_go(&mut book, header);
    Ok((cost, plant))
}

fn main(rt: HostRuntime) -> io::Result<()> {
    match figures() {
        Ok((cost, plant)) => {
            println!(rt; "cost {cost}")?;
            println!(rt; "plant {plant}")
        }
        Err(refusal) => println!(rt; "refused {}", refusal.number()),
    }
}
