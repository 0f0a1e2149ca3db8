// A list of lines over memory of the caller: a slice with a length beside it, and no Vec, since a
// packer uses no heap. So a caller makes an array and a list over it, for places and for closings. One
// kind of list serves every sort of line.
ghost use Rattle.std.specs.Prelude.{◌≡◌, ◌≤◌, length};

#[derive(Drop)]
pub struct Lines<'a, T> {
    memory: &'a mut [T],
    used: usize,
    ghost within: { used ≤ length memory.now },
}

impl<'a, T: Copy> Lines<'a, T> {
    ghost use Rattle.std.specs.Prelude.{◌≡◌, ◌<◌, ◌≤◌, ◌↔◌, [], ◌∷◌, length, IsOk, OnOk, IfErr, slice_get};
    ghost use Rattle.ledger.specs.Rules.{maybe};
    ghost use Rattle.packer.specs.Shown.{free, shown, Gained};

    // A list that holds no line yet.
    pub fn new(memory: &'a mut [T]) -> Lines<'a, T>
        ensures used { result.used ≡ 0 }
        ensures memory { result.memory.now ≡ memory.old }
        ensures same { result.memory.ghost_name ≡ memory.entry.ghost_name }
    {
        Lines { memory, used: 0 }
    }

    // How many lines it holds.
    pub fn len(&self) -> usize
        ensures { result ≡ length (shown self.now) }
    {
        self.view().len()
    }

    // How many lines are unwritten.
    pub fn room(&self) -> usize
        ensures { result ≡ free self.now }
    {
        self.memory.len() - self.used
    }

    // The line at an index, from 0, or its absence.
    pub fn get(&self, i: usize) -> Option<T>
        ensures { result ≡ slice_get (shown self.now) i }
    {
        self.view().get(i).copied()
    }

    // All lines, in order of adding.
    pub fn view(&self) -> &[T]
        ensures { result.now ≡ shown self.now }
    {
        &self.memory[..self.used]
    }

    // One line more. Where none is unwritten, the line comes back and the list stays as it was.
    pub fn add(&mut self, line: T) -> Result<(), T>
        ensures fits { IsOk result ↔ (0 < free self.old) }
        ensures added { OnOk result (Gained self.old self.new (line ∷ [])) }
        ensures full { IfErr result (λ back. (back ≡ line) × (self.new ≡ self.old)) }
    {
        if self.room() == 0 {
            return Err(line);
        }
        self.write(line);
        Ok(())
    }

    // One line more, where one is unwritten.
    pub(crate) fn write(&mut self, line: T)
        requires { 0 < free self.old }
        ensures { Gained self.old self.new (line ∷ []) }
    {
        self.memory[self.used] = line;
        self.used += 1;
    }

    // The line that is there, if one is.
    pub(crate) fn write_some(&mut self, line: Option<T>)
        requires { length (maybe line) ≤ free self.old }
        ensures { Gained self.old self.new (maybe line) }
    {
        if let Some(x) = line {
            self.write(x);
        }
    }

    // The memory, back to whoever lent it.
    pub fn into_memory(self) -> &'a mut [T]
        ensures { (result.now ≡ self.entry.memory.now) × (result.ghost_name ≡ self.entry.memory.ghost_name) }
    {
        let memory = self.memory;
        memory
    }
}
