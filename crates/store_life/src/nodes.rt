//! Laws of nodes that run, through the life of their stores.
ghost use Rattle.buffer_commands.specs.Settings.{Settings};
ghost use Rattle.store_life.specs.Running.{AnewRunBegins, NewRunBegins, RunGoesOn, RunIsPeriod};
ghost use Rattle.store_life.specs.Running.{NodesEndAsViewed, NoneHandedAgain};
ghost use Rattle.store_life.specs.Running.{ViewsHandOfTheirPeriod, ViewsHandOthers};

/// Nodes that run over honest stores make a period of a life: over new stores the first, over stores that were begun
/// anew one that begins with these bodies; those that are opened over what a period left continue it. Its end is by the
/// views of a majority whose stores are whole: the chosen log is of one of them, and at least as up to date as that of
/// each.
pub fn running_nodes_make_a_period()
    ensures new { (s : Settings) → NewRunBegins s }
    ensures anew { (s : Settings) → AnewRunBegins s }
    ensures on { (s : Settings) → RunGoesOn s }
    ensures ends { RunIsPeriod }
{}

/// What a running node hands upstream is part of what its period hands, and nothing that was handed before the nodes
/// were last opened. At the end the node has saved what its view says.
pub fn views_are_of_their_period()
    ensures lines { ViewsHandOfTheirPeriod }
    ensures others { ViewsHandOthers }
    ensures ends { NodesEndAsViewed }
{}

/// The lines that nodes hand upstream in a period of a life have serials above those of all lines that any node handed in
/// an earlier one. So no running node hands a line that was handed before its stores were begun anew.
pub fn no_node_hands_a_line_again()
    ensures { NoneHandedAgain }
{}
