// What the program says of itself.
use console::About;

pub const ABOUT: About = About {
    name: "plan",
    version: "1.0.0",
    help: HELP,
    switches: &["--help", "--version", "--text", "--bars"],
    options: &["--changes", "--changed", "--svg"],
};

const HELP: &str = "plan [NIGHT [SHEET]] [OPTION]..

Plans the night in the file NIGHT, or in standard input where none is named or it is -, and prints the load of each hour
and how much of each task is done in which hour. The plan is the most even one: no plan is cheaper under any tariff that
is the same for each hour and dearer the more is drawn in an hour, and none has a smaller peak.
The sheet of the plan, by which anybody can check it, is written to the file SHEET if one is named.
A night that is refused prints its number and place, as 'refused 4 at 6'; then nothing is written, and the status is 1.

  --text            NIGHT is a text: 'hours 96', then a line for each task, as 'ferry Astrid 120 : 20-23 0-4'
  --bars            prints the loads as bars, in place of the lines
  --svg FILE        draws the plan as a picture for any browser
  --changes FILE    plans the night after the changes in FILE, one a line: 'comes 120 : 20 21', 'goes 3', 'more 2 15'
  --changed FILE    writes the bytes of the night after the changes to FILE
  --help            prints this
  --version         prints the version

A file to be written that is named - is standard output.

Examples: plan examples/c.night
          plan examples/island.txt island.sheet --text --bars --svg island.svg";
