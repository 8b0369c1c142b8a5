//! Facts with distributions.
use crate::runs::{Case, Ending, hold};

/// Places with a distribution over two outcomes.
pub const QUALITY: &str =
    "cube\t1\npolicy\tuniform\nparts\tQuality\t100\tgood\tbad\ndimension\tPlace\nnode\t0\tAll\nnode\t1\tTX\nnode\t2\tAustin\nnode\t2\tDallas\nnode\t1\tCA\nnode\t2\tLA\nend\n";

/// Places and autos with a distribution before a number.
const GRADED: &str =
    "cube\t1\npolicy\tcount\nparts\tQuality\t100\tgood\tbad\nnumber\tRepair\ndimension\tPlace\nnode\t0\tAll\nnode\t1\tTX\nnode\t2\tAustin\nnode\t2\tDallas\nnode\t2\tHouston\nnode\t1\tCA\nnode\t2\tLA\nnode\t2\tSF\ndimension\tAuto\nnode\t0\tAll\nnode\t1\tSedan\nnode\t2\tCamry\nnode\t2\tCivic\nnode\t1\tTruck\nnode\t2\tF150\nnode\t2\tSierra\nend\n";

const CASES: [Case; 2] = [
    (
        QUALITY,
        "insert\t1\tAustin\t80:20\ninsert\t2\tTX\t50:50\ninsert\t3\tLA\t80:21\ninsert\t3\tLA\t80\ninsert\t3\tLA\t80:20:0\ninsert\t3\tLA\t080:20\ninsert\t3\tLA\t120:-20\ninsert\t2\tLA\t1:1\ninsert\t2\tLA\t100:0\nterms\tAustin\nterms\tLA\npool\tQuality\tAustin\npool\tQuality\tLA\nsum\tQuality\tAustin\navg\tQuality\tLA\n",
        "ok\t1\nok\t1\nerror\tparts\nerror\tparts\nerror\tparts\nerror\tparts\nerror\tparts\nerror\tparts\nerror\texists\nterms\t2\t1\t1\t80\t20\t2\t1\t50\t50\nterms\t0\npool\t0.700000000\t0.700000000\t7/10\t0.300000000\t0.300000000\t3/10\nerror\tundefined\nerror\tmeasure\nerror\tmeasure\n",
        Ending::Finished { refused: 10 },
    ),
    // A wrong number is reported before wrong parts, and a wrong line before both.
    (
        GRADED,
        "insert\t1\tAustin\tCamry\t80:20\t5\ninsert\t1\tAustin\tCamry\t80:21\t+5\ninsert\t1\tAustin\tCamry\t80:21\t5\ninsert\t1\tAustin\tCamry\t80:20\t+5\ninsert\t1\tWaco\tCamry\t80:21\t5\ninsert\t0\tAustin\tCamry\t80:21\t5\ninsert\t1\tAustin\tCamry\t80:21\nchange\t1\tAustin\tCamry\t80:20\t5\nchange\t1\tAustin\tCamry\t80:21\t+5\nchange\t1\tAustin\tCamry\t80:21\t5\n",
        "ok\t1\nerror\tvalue\nerror\tparts\nerror\tvalue\nerror\tnode\nerror\tid\nerror\tfields\nok\t0\nerror\tvalue\nerror\tparts\n",
        Ending::Finished { refused: 8 },
    ),
];

#[test]
fn parts_of_outcomes(rt: HostRuntime) {
    assert!(rt; hold(rt.alloc(), &CASES));
}
