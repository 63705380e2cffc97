// The calls blank, place, lift and set as calls of a story: what their clauses `story` say comes to.
ghost use Rattle.stepping.specs.Telling.{CallsTellStories};

use arithmetic::Arithmetic;

// A granted blank begins a story, every call goes on with it, and one that is lent a row table of another length leaves
// plan, table and the story's sheet.
pub fn calls_tell_stories<N: Arithmetic>()
    ensures { CallsTellStories N.ops }
{}
