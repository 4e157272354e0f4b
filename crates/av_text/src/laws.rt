// The law of the demo scripts.
ghost use Rattle.av_text.specs.Demo.{DemoLaw};

/// The demo script of each number up to 99,999 is a script with a basis of eleven words and two queries: the counts to length
/// 160, and the inversions of 1,000 members of length 40 that are drawn by that number. Its class is settled with a gap of at
/// most 5, at each limit of lengths from 6 on.
pub fn demo_law()
    ensures { DemoLaw }
{}
