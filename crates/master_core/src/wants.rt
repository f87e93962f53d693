/// What a thread does next. `number` is that of the entry that it will be, and `places` how often the variable was
/// touched.
#[derive(Clone, Copy, Debug, PartialEq, Eq)]
pub enum Wants {
    /// Takes its input of this number, from 1.
    Take(u64),
    /// Touches a variable: it may change it.
    Touch { number: u64, var: u32, places: u64 },
    /// Reads a variable and leaves it as it is.
    Read { number: u64, var: u32, places: u64 },
    /// Is told the time, as the entry of this number.
    Clock(u64),
    /// Is told a random word, as the entry of this number.
    Draw(u64),
    /// Sends the packet in hand out.
    Emit,
    /// Ends the packet in hand.
    End,
}
