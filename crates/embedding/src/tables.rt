// Tables of what a function says.
ghost use Rattle.std.specs.Prelude.{◌≡◌, ℕ, ◌<◌, ◌≤◌, length, slice_index_or};
ghost use Rattle.embedding.specs.Tables.{Tells};

/// Writes into each of the first n places what f says of its index.
pub fn fill<T: Copy, F: Fn(usize) -> T>(table: &mut [T], n: usize, f: F)
    requires room { n ≤ length table.old }
    requires called { (e : ℕ) → e < n → F.pre f e }
    ensures long { length table.new ≡ length table.old }
    ensures told { Tells (F.post f) table.new n }
    ensures rest { (d : T) (e : ℕ) → n ≤ e → slice_index_or table.new e d ≡ slice_index_or table.old e d }
{
    // By index, which the closure is asked for; over `iter_mut().enumerate()` the proof did not close.
    for e in 0..n {
        table[e] = f(e);
    }
}

/// A table whose first n places hold what f says of their index, and the others a blank.
pub fn table<T: Copy, const N: usize, F: Fn(usize) -> T>(n: usize, blank: T, f: F) -> [T; N]
    requires room { n ≤ N }
    requires called { (e : ℕ) → e < n → F.pre f e }
    ensures told { Tells (F.post f) result n }
    ensures rest { (e : ℕ) → n ≤ e → slice_index_or result e blank ≡ blank }
{
    let mut table = [blank; N];
    fill(&mut table, n, f);
    table
}
