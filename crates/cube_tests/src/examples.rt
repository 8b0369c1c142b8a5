//! The sets of the folder `examples`: scripts with the replies that they must give, and files of facts.
use crate::fact_files::is_imported;
use crate::runs::{Case, Ending, REPAIRS, holds};
use cube_base::Memory;
use std::alloc::Global;

/// Four repairs, and questions about them.
const REPAIRS_LINES: &str =
    "insert\t1\tAustin\tCamry\t100\ninsert\t2\tAustin\tCamry\t300\ninsert\t3\tDallas\tCamry\t50\ninsert\t4\tTX\tCamry\t600\n# how fact 4 is spread, what there is in Austin, and a repair's mean cost in Texas\nrows\t4\nterms\tAustin\tCamry\ncount\tAustin\tCamry\nsum\tRepair\tAustin\tCamry\navg\tRepair\tTX\tAll\n# the roll-up: states by kinds of autos\nview\tstate\n";

/// What they are answered under the policy of counts.
const REPAIRS_REPLIES: &str =
    "ok\t1\nok\t1\nok\t1\nok\t1\nrows\t3\t2\tAustin\tCamry\t2\tDallas\tCamry\t1\nterms\t2\t1\t2\t400\t3\t2\t1200\ncount\t2.666666666\t2.666666667\t8/3\nsum\t800.000000000\t800.000000000\t800\navg\t262.500000000\t262.500000000\t525/2\nview\t1\tTX\tSedan\t2\t1\t3\t450\t3\t3\t1800\n";

/// The same repairs as a file.
const REPAIRS_FILE: &str =
    "id,Place,Auto,Repair\n1,Austin,Camry,100\n2,Austin,Camry,300\n3,Dallas,Camry,50\n4,TX,Camry,600\n";

/// The schema of repairs under the policy that weighs each cell alike.
pub const REPAIRS_EVENLY: &str =
    "cube\t1\npolicy\tuniform\nnumber\tRepair\ndimension\tPlace\nnode\t0\tAll\nnode\t1\tTX\nnode\t2\tAustin\nnode\t2\tDallas\nnode\t2\tHouston\nnode\t1\tCA\nnode\t2\tLA\nnode\t2\tSF\ndimension\tAuto\nnode\t0\tAll\nnode\t1\tSedan\nnode\t2\tCamry\nnode\t2\tCivic\nnode\t1\tTruck\nnode\t2\tF150\nnode\t2\tSierra\nview\tstate\t1\t1\nend\n";

/// What the same lines are answered then.
const REPAIRS_EVENLY_REPLIES: &str =
    "ok\t1\nok\t1\nok\t1\nok\t1\nrows\t3\t3\tAustin\tCamry\t1\tDallas\tCamry\t1\tHouston\tCamry\t1\nterms\t2\t1\t2\t400\t3\t1\t600\ncount\t2.333333333\t2.333333334\t7/3\nsum\t600.000000000\t600.000000000\t600\navg\t262.500000000\t262.500000000\t525/2\nview\t1\tTX\tSedan\t2\t1\t3\t450\t3\t3\t1800\n";

/// Weeks of two quarters, and two shops.
const WEEKS: &str =
    "cube\t1\npolicy\tcount\nnumber\tAmount\ndimension\tWeek\nnode\t0\tYear\nnode\t1\tQ1\nnode\t2\tW10\nnode\t2\tW11\nnode\t2\tW12\nnode\t2\tW13\nnode\t1\tQ2\nnode\t2\tW14\nnode\t2\tW15\nnode\t2\tW16\ndimension\tShop\nnode\t0\tAll\nnode\t1\tLeeds\nnode\t1\tYork\nview\tweeks\t2\t0\nview\tshops\t2\t1\nend\n";

/// Eight sales, of three of which the week or the shop is unknown.
const WEEKS_LINES: &str =
    "insert\t1\tW10\tLeeds\t120\ninsert\t2\tW10\tLeeds\t80\ninsert\t3\tW12\tLeeds\t200\ninsert\t4\tW11\tYork\t90\ninsert\t5\tW14\tYork\t60\ninsert\t6\tQ1\tLeeds\t300\ninsert\t7\tQ2\tLeeds\t45\ninsert\t8\tW16\tAll\t40\n# how the three sales lie of which the week or the shop is unknown\nrows\t6\nrows\t7\nrows\t8\n# what Leeds sold in week 10: how many sales, for how much, and what both are made of\ncount\tW10\tLeeds\nsum\tAmount\tW10\tLeeds\nterms\tW10\tLeeds\n# a sale's mean amount in Leeds in the first quarter\navg\tAmount\tQ1\tLeeds\n# the roll-up: weeks of all shops\nview\tweeks\n";

/// What they are answered.
const WEEKS_REPLIES: &str =
    "ok\t1\nok\t1\nok\t1\nok\t1\nok\t1\nok\t1\nok\t1\nok\t1\nrows\t3\t2\tW10\tLeeds\t2\tW12\tLeeds\t1\nrows\t3\t3\tW14\tLeeds\t1\tW15\tLeeds\t1\tW16\tLeeds\t1\nrows\t2\t2\tW16\tLeeds\t1\tW16\tYork\t1\ncount\t2.666666666\t2.666666667\t8/3\nsum\t400.000000000\t400.000000000\t400\nterms\t2\t1\t2\t200\t3\t2\t600\navg\t175.000000000\t175.000000000\t175\nview\t6\tW10\tAll\t2\t1\t2\t200\t3\t2\t600\tW11\tAll\t1\t1\t1\t90\tW12\tAll\t2\t1\t1\t200\t3\t1\t300\tW14\tAll\t2\t1\t1\t60\t3\t1\t45\tW15\tAll\t1\t3\t1\t45\tW16\tAll\t2\t2\t2\t80\t3\t1\t45\n";

/// The same sales as a file.
const WEEKS_FILE: &str =
    "id,Week,Shop,Amount\n1,W10,Leeds,120\n2,W10,Leeds,80\n3,W12,Leeds,200\n4,W11,York,90\n5,W14,York,60\n6,Q1,Leeds,300\n7,Q2,Leeds,45\n8,W16,All,40\n";

/// Age groups and districts, with how severe a case is and how long it stays.
const PATIENTS: &str =
    "cube\t1\npolicy\tuniform\nparts\tSeverity\t100\tmild\tsevere\nnumber\tDays\ndimension\tAge\nnode\t0\tAll\nnode\t1\tChild\nnode\t2\t0-4\nnode\t2\t5-14\nnode\t1\tAdult\nnode\t2\t15-44\nnode\t2\t45-64\nnode\t2\t65+\ndimension\tDistrict\nnode\t0\tCity\nnode\t1\tNorth\nnode\t2\tHill\nnode\t2\tPark\nnode\t1\tSouth\nnode\t2\tDock\nnode\t2\tMill\nview\tgroups\t1\t1\nend\n";

/// Seven patients, of four of whom the age or the district is known but roughly.
const PATIENTS_LINES: &str =
    "insert\t1\t0-4\tHill\t90:10\t2\ninsert\t2\t5-14\tPark\t80:20\t3\ninsert\t3\tChild\tHill\t60:40\t4\ninsert\t4\t15-44\tDock\t50:50\t5\ninsert\t5\t65+\tSouth\t20:80\t9\ninsert\t6\tAdult\tDock\t40:60\t6\ninsert\t7\tAll\tMill\t70:30\t3\n# how the patient of unknown age lies in the district Mill\nrows\t7\n# how many children of up to 4 years are expected, and the mean stay of all children\ncount\t0-4\tCity\navg\tDays\tChild\tCity\n# the oldest in the south: their days, how severe their cases are, and what both are made of\nsum\tDays\t65+\tSouth\npool\tSeverity\t65+\tSouth\nterms\t65+\tSouth\n# all sixty possible worlds, and what they come to for the oldest in Dock\nworlds\t65+\tDock\n# the roll-up: age groups by halves of the city\nview\tgroups\n";

/// What they are answered.
const PATIENTS_REPLIES: &str =
    "ok\t1\nok\t1\nok\t1\nok\t1\nok\t1\nok\t1\nok\t1\nrows\t5\t5\t0-4\tMill\t1\t5-14\tMill\t1\t15-44\tMill\t1\t45-64\tMill\t1\t65+\tMill\t1\ncount\t1.700000000\t1.700000000\t17/10\navg\t3.000000000\t3.000000000\t3\nsum\t11.600000000\t11.600000000\t58/5\npool\t0.308695652\t0.308695653\t71/230\t0.691304347\t0.691304348\t159/230\nterms\t3\t2\t2\t40\t160\t18\t3\t1\t40\t60\t6\t5\t1\t70\t30\t3\nworlds\t60\t60\t50\t1400\t3600\t390\nview\t3\tChild\tNorth\t2\t1\t2\t170\t30\t5\t2\t2\t120\t80\t8\tChild\tSouth\t1\t5\t2\t140\t60\t6\tAdult\tSouth\t4\t1\t1\t50\t50\t5\t2\t2\t40\t160\t18\t3\t3\t120\t180\t18\t5\t3\t210\t90\t9\n";

/// The same patients as a file.
const PATIENTS_FILE: &str =
    "id,Age,District,Severity,Days\n1,0-4,Hill,90:10,2\n2,5-14,Park,80:20,3\n3,Child,Hill,60:40,4\n4,15-44,Dock,50:50,5\n5,65+,South,20:80,9\n6,Adult,Dock,40:60,6\n7,All,Mill,70:30,3\n";

/// A schema, a script after it and its replies, and a file of facts with what its import is answered.
type Example = (
    &'static str,
    &'static str,
    &'static str,
    &'static str,
    &'static str,
);

const EXAMPLES: [Example; 4] = [
    (
        REPAIRS,
        REPAIRS_LINES,
        REPAIRS_REPLIES,
        REPAIRS_FILE,
        "imported\t4\t4\n",
    ),
    (
        REPAIRS_EVENLY,
        REPAIRS_LINES,
        REPAIRS_EVENLY_REPLIES,
        REPAIRS_FILE,
        "imported\t4\t4\n",
    ),
    (
        WEEKS,
        WEEKS_LINES,
        WEEKS_REPLIES,
        WEEKS_FILE,
        "imported\t8\t8\n",
    ),
    (
        PATIENTS,
        PATIENTS_LINES,
        PATIENTS_REPLIES,
        PATIENTS_FILE,
        "imported\t7\t7\n",
    ),
];

/// Whether a script is replied to as an example says, and its file, once imported, is exported as it came.
fn is_as_said(alloc: Global, example: &Example) -> Result<bool, Memory> {
    let (schema, lines, replies, file, imported) = *example;
    let case: Case = (schema, lines, replies, Ending::Finished { refused: 0 });
    Ok(
        holds(alloc, &case)?
            && is_imported(alloc, &(schema, file.as_bytes(), None, imported, file))?,
    )
}

fn are_as_said(alloc: Global, examples: &[Example]) -> bool {
    examples
        .iter()
        .all(|example| is_as_said(alloc, example) == Ok(true))
}

#[test]
fn sets_of_examples(rt: HostRuntime) {
    assert!(rt; are_as_said(rt.alloc(), &EXAMPLES));
}
