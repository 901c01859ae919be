//! What is shown below the help of the program and of each command: the statuses that it ends with, and an example.

// The statuses of answers and refusals, among those that every command has, then the last ones and the example.
macro_rules! below {
    ($answers:literal, $refusals:literal, $example:literal) => {
        below!(
            $answers,
            "  3  a table was refused, or could not be read\n",
            $refusals,
            "",
            $example
        )
    };
    ($answers:literal, $tables:literal, $refusals:literal, $last:literal, $example:literal) => {
        concat!(
            "Exit status:\n",
            $answers,
            "  2  the command line was refused\n",
            $tables,
            $refusals,
            "  6  a write failed\n",
            "  7  out of memory\n",
            $last,
            "\n",
            "Example, with the five tables of an export in the folder cloud:\n",
            $example
        )
    };
}

// The same of a command that searches.
macro_rules! searching {
    ($answers:literal, $refusals:literal, $example:literal) => {
        below!(
            $answers,
            "  3  a table was refused, or could not be read\n",
            $refusals,
            "  8  a search made as many tries as it may\n",
            $example
        )
    };
}

pub(super) const PROGRAM: &str = below!(
    "  0  the answer is written\n  1  `verify` says no; `fill`, `explain`, `hosts` or `why` finds no \
     candidate; `fill` places fewer than `limit`, or `capacity` than are wanted; `audit` finds \
     something\n",
    "  3  a table was refused, or a table or the questions could not be read\n",
    "  4  the query or the table of flavors was refused\n  5  the token was refused, or the host names no provider\n",
    "  8  a search made as many tries as it may\n",
    "  ac_cli tokens 'resources=VCPU:2,DISK_GB:20' --tables cloud"
);

pub(super) const CHECK: &str = below!(
    "  0  the tables are accepted\n",
    "",
    "  ac_cli check --tables cloud"
);

pub(super) const CANDIDATES: &str = searching!(
    "  0  the candidates are written, if there are any\n",
    "  4  the query was refused\n  5  the token was refused\n",
    "  ac_cli candidates 'resources=VCPU:2,DISK_GB:20&limit=10' --tables cloud"
);

pub(super) const TOKENS: &str = searching!(
    "  0  the candidates are written, if there are any\n",
    "  4  the query was refused\n  5  the token was refused\n",
    "  ac_cli tokens 'resources=VCPU:2,DISK_GB:20&limit=10' --tables cloud"
);

pub(super) const LIST: &str = searching!(
    "  0  the candidates are written, if there are any\n",
    "  4  the query was refused\n  5  the token was refused\n",
    "  ac_cli list 'resources=VCPU:2,DISK_GB:20&limit=10' --tables cloud -f table"
);

pub(super) const FILL: &str = searching!(
    "  0  something was placed; with a limit, as many as it says\n  1  nothing fits, or fewer than the limit\n",
    "  4  the query was refused\n",
    "  ac_cli fill 'resources=VCPU:2,DISK_GB:20&limit=50' --tables cloud"
);

pub(super) const VERIFY: &str = below!(
    "  0  the token is a candidate\n  1  it isn't one\n",
    "  4  the query was refused\n  5  the token was refused\n",
    "  ac_cli verify 'resources=VCPU:4' b48d0f61-9e2c-4c7a-83d5-e6047b15ac05 --tables cloud"
);

pub(super) const EXPLAIN: &str = searching!(
    "  0  there is a candidate\n  1  there is none\n",
    "  4  the query was refused\n",
    "  ac_cli explain 'resources=VCPU:8&required=CUSTOM_ROW_2' --tables cloud"
);

pub(super) const HOSTS: &str = searching!(
    "  0  the query fits at some root\n  1  it fits at none\n",
    "  4  the query was refused\n",
    "  ac_cli hosts 'resources=VCPU:8&required=CUSTOM_ROW_2' --tables cloud"
);

pub(super) const WHY: &str = searching!(
    "  0  the query fits at the host\n  1  it doesn't fit there\n",
    "  4  the query was refused\n  5  the host names no provider, or several\n",
    "  ac_cli why 'resources=VCPU:8&required=CUSTOM_ROW_2' compute-02 --tables cloud"
);

pub(super) const CAPACITY: &str = searching!(
    "  0  of each flavor as many can be placed as are wanted\n  1  of some fewer can\n",
    "  4  the table of flavors was refused, or could not be read\n",
    "  ac_cli capacity flavors.csv --tables cloud"
);

pub(super) const COMPARE: &str = searching!(
    "  0  they have the same\n  1  they differ\n",
    "  4  the query was refused\n  5  the answer was refused, or could not be read\n",
    "  ac_cli compare 'resources=VCPU:4' answer.json --tables cloud"
);

pub(super) const AUDIT: &str = below!(
    "  0  nothing is amiss\n  1  something is\n",
    "",
    "  ac_cli audit --tables cloud"
);

pub(super) const QUERY: &str = "\
Exit status:
  0  the query or the parameters are written
  2  the command line was refused
  4  the query was refused
  6  a write failed
  7  out of memory

Example, with no tables:
  ac_cli query 'resources=VCPU:2,DISK_GB:20&required=!CUSTOM_OLD'";

pub(super) const SESSION: &str = below!(
    "  0  the questions are at their end\n",
    "  3  a table was refused, or a table or the questions could not be read\n",
    "",
    "",
    "  ac_cli session --tables cloud < questions"
);
