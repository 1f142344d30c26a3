ghost use denote.Param.Send.{IsSync};
ghost use Rattle.hub_lines.specs.contracts.hub_line.HubLine as lines;

/// Lines may be read from several threads at once. The call does nothing when it runs: what it promises is what later searches stand on.
pub fn lines_cross()
    ensures { IsSync lines.the_row }
{}
