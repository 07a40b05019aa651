// How many entries a history must have room for.

ghost use Rattle.std.specs.Prelude.{◌≡◌, ◌*◌, ◌≤◌, length, max};

/// How many entries these commands make at the most, 17 each; at least 1, as many as a history must have room for. Takes no
/// memory.
pub fn most_entries<T>(commands: &[T]) -> u32
    requires few { length commands.now ≤ 4096 }
    ensures value { result ≡ max 1 (17 * length commands.now) }
    ensures some { 1 ≤ result }
    ensures enough { 17 * length commands.now ≤ result }
    ensures bounded { result ≤ 1000000 }
{
    (17 * commands.len() as u32).max(1)
}
