// A list of moves, each made so many times.
use clock::Length;

#[derive(Clone, Copy)]
pub enum Move {
    Tick,
    Arrival { server: usize, cost: Length },
}

// A move that is made so many times, one after the other.
#[derive(Clone, Copy)]
pub struct Often {
    pub of: Move,
    pub times: u64,
}

pub(crate) fn ticks(times: u64) -> Often {
    Often {
        of: Move::Tick,
        times,
    }
}

// Work for a server, of so much cost each time.
pub(crate) fn arrivals(server: usize, cost: u64, times: u64) -> Often {
    Often {
        of: Move::Arrival {
            server,
            cost: Length { ticks: cost },
        },
        times,
    }
}
