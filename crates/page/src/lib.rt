// A lent list of bytes or of numbers that is filled from its start on: one is added behind the other, and what does not fit is left out. No
// place is touched but those that are filled. Text is added by `text`.
#![tactic(auto)]

ghost use Rattle.std.specs.Prelude.{[], ◌∷◌};
ghost use Rattle.page.specs.Page.{Added};

#[derive(Drop)]
pub struct Page<'a, T> {
    pub list: &'a mut [T],
    // The place that is filled next.
    pub next: usize,
}

impl<T: Copy> Page<'_, T> {
    // Adds one item, where there is room.
    pub fn add(&mut self, item: T)
        ensures { Added (item ∷ []) self.old self.new }
    {
        if self.next < self.list.len() {
            self.list[self.next] = item;
            self.next += 1;
        }
    }
}
