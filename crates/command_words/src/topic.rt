ghost use Rattle.std.specs.Prelude.{◌≡◌};
ghost use Rattle.command_words.specs.Request.{topic_of};

/// A command, of which the help has a part of its own.
#[derive(Clone, Copy, PartialEq, Eq)]
pub enum Topic {
    Run,
    Live,
    Drill,
    Trace,
    Picture,
    Chain,
    Hand,
    Resume,
    Tap,
    Play,
    Check,
    Make,
    Watch,
}

/// The command of this name.
pub fn read_topic(name: &str) -> Option<Topic>
    ensures { result ≡ topic_of name.now }
{
    match name {
        "run" => Some(Topic::Run),
        "live" => Some(Topic::Live),
        "drill" => Some(Topic::Drill),
        "trace" => Some(Topic::Trace),
        "picture" => Some(Topic::Picture),
        "chain" => Some(Topic::Chain),
        "hand" => Some(Topic::Hand),
        "resume" => Some(Topic::Resume),
        "tap" => Some(Topic::Tap),
        "play" => Some(Topic::Play),
        "check" => Some(Topic::Check),
        "make" => Some(Topic::Make),
        "watch" => Some(Topic::Watch),
        _ => None,
    }
}
