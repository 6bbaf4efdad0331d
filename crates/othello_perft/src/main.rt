#![tactic(auto)]

use othello_rules::{Diagram, Side, Turn};

// How many lines of play of so many moves there are; a pass is a move, and a line that ends early counts as one.
fn leaves(diagram: &Diagram, depth: u8) -> u64 {
    if depth == 0 {
        return 1;
    }
    match diagram.turn() {
        Turn::Ended => 1,
        Turn::Pass => leaves(&diagram.passed(), depth - 1),
        Turn::Place => {
            let placements = diagram.placements();
            let mut sum = 0u64;
            for square in placements.as_slice() {
                if let Some(next) = diagram.place(*square) {
                    sum = sum.wrapping_add(leaves(&next, depth - 1));
                }
            }
            sum
        }
    }
}

fn main(rt: HostRuntime) -> Result<(), std::io::Error> {
    // X has e4 and d5, O has d4 and e5
    let opening = Diagram {
        x: (1u64 << 28) | (1u64 << 35),
        o: (1u64 << 27) | (1u64 << 36),
        mover: Side::X,
    };
    for depth in 1..8u8 {
        println!(rt; "{depth} {}", leaves(&opening, depth))?;
    }
    Ok(())
}
