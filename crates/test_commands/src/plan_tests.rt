use crate::helpers::{Ended, ends, printed, refused, shelf_of};
use spares_io::MemShelf;
use std::alloc::Global;
use std::process::Abort;
use std::test::*;

/// The words of `plan` on the files of a shelf, without the budget.
const PLAN: &str = "plan --sites sites --parts parts --rates rates --certificate certificate";

/// The words of `check` on its certificate.
const CHECK: &str = "check --certificate certificate";

/// One line unit at the depot and one base.
const ONE: &str = "site,kind,systems,ship_days\nD,depot,,\nB,base,12,10\n|\
    part,parent,cost,per_system,max_depot,max_base\nL,,100,1,2,3\n|\
    part,site,demand,repair_here,share,repair_days\nL,D,,,,20\nL,B,36.5,0,,0\n|";

/// The same with two systems at the base.
const SMALL: &str = "site,kind,systems,ship_days\nD,depot,,\nB,base,2,10\n|\
    part,parent,cost,per_system,max_depot,max_base\nL,,100,1,2,3\n|\
    part,site,demand,repair_here,share,repair_days\nL,D,,,,20\nL,B,36.5,0,,0\n|";

/// The same with a weight of 3.
const WEIGHTED: &str = "site,kind,systems,ship_days\nD,depot,,\nB,base,12,10\n|\
    part,parent,cost,per_system,max_depot,max_base,weight\nL,,100,1,2,3,3\n|\
    part,site,demand,repair_here,share,repair_days\nL,D,,,,20\nL,B,36.5,0,,0\n|";

/// The first case, with one unit on hand at the base.
const HELD: &str = "site,kind,systems,ship_days\nD,depot,,\nB,base,12,10\n|\
    part,parent,cost,per_system,max_depot,max_base\nL,,100,1,2,3\n|\
    part,site,demand,repair_here,share,repair_days\nL,D,,,,20\nL,B,36.5,0,,0\n|\
    part,site,stock\nL,D,0\nL,B,1\n";

/// The same with nothing on hand.
const UNHELD: &str = "site,kind,systems,ship_days\nD,depot,,\nB,base,12,10\n|\
    part,parent,cost,per_system,max_depot,max_base\nL,,100,1,2,3\n|\
    part,site,demand,repair_here,share,repair_days\nL,D,,,,20\nL,B,36.5,0,,0\n|\
    part,site,stock\nL,D,0\nL,B,0\n";

/// A second line unit like the first.
const ALIKE: &str = "site,kind,systems,ship_days\nD,depot,,\nB,base,12,10\n|\
    part,parent,cost,per_system,max_depot,max_base\nL,,100,1,2,3\nK,,100,1,2,3\n|\
    part,site,demand,repair_here,share,repair_days\nL,D,,,,20\nL,B,36.5,0,,0\nK,D,,,,20\nK,B,36.5,0,,0\n|";

/// The same with weights of 1 and 2.
const UNLIKE: &str = "site,kind,systems,ship_days\nD,depot,,\nB,base,12,10\n|\
    part,parent,cost,per_system,max_depot,max_base,weight\nL,,100,1,2,3,1\nK,,100,1,2,3,2\n|\
    part,site,demand,repair_here,share,repair_days\nL,D,,,,20\nL,B,36.5,0,,0\nK,D,,,,20\nK,B,36.5,0,,0\n|";

/// A second, cheaper line unit.
const CHEAP: &str = "site,kind,systems,ship_days\nD,depot,,\nB,base,12,10\n|\
    part,parent,cost,per_system,max_depot,max_base\nL,,100,1,2,3\nK,,30,1,2,3\n|\
    part,site,demand,repair_here,share,repair_days\nL,D,,,,20\nL,B,36.5,0,,0\nK,D,,,,20\nK,B,36.5,0,,0\n|";

/// No parts.
const BARE: &str = "site,kind,systems,ship_days\nD,depot,,\nB,base,12,10\n|\
    part,parent,cost,per_system,max_depot,max_base\n|\
    part,site,demand,repair_here,share,repair_days\n|";

/// The first case without a row of rates.
const UNRATED: &str = "site,kind,systems,ship_days\nD,depot,,\nB,base,12,10\n|\
    part,parent,cost,per_system,max_depot,max_base\nL,,100,1,2,3\n|\
    part,site,demand,repair_here,share,repair_days\nL,D,,,,20\n|";

/// Two bases with 20,160 choices and 71 tables.
const CHOICES: &str = "site,kind,systems,ship_days\nD,depot,,\nB1,base,12,10\nB2,base,12,10\n|\
    part,parent,cost,per_system,max_depot,max_base\nL,,100,1,34,23\n|\
    part,site,demand,repair_here,share,repair_days\nL,D,,,,20\nL,B1,3.65,0,,0\nL,B2,3.65,0,,0\n|";

/// Three bases with 1,152,762 tables.
const LARGE: &str =
    "site,kind,systems,ship_days\nD,depot,,\nB1,base,12,10\nB2,base,12,10\nB3,base,12,10\n|\
    part,parent,cost,per_system,max_depot,max_base\nL,,100,1,9,0\nR,L,10,,13,13\nS,L,10,,13,13\n|\
    part,site,demand,repair_here,share,repair_days\nL,D,,,,20\nL,B1,3.65,0.5,,0\nL,B2,3.65,0.5,,0\nL,B3,3.65,0.5,,0\nR,D,,,0.2,20\nR,B1,,0.5,0.2,5\nR,B2,,0.5,0.2,5\nR,B3,,0.5,0.2,5\nS,D,,,0.2,20\nS,B1,,0.5,0.2,5\nS,B2,,0.5,0.2,5\nS,B3,,0.5,0.2,5\n|";

/// Tables, the words after the files, the report of the plan, and the report of its certificate's check.
const PLANNED: [(&str, &str, &str, &str); 18] = [
    (
        ONE,
        "--budget 0",
        "plan,0\ncost,0\nitem,L,D,0,2.000000,2.000000,2.000000,2.000000,2.000000,2.000000,2.000000,2.000000\nitem,L,B,0,3.000000,3.000000,3.000000,3.000000,3.000000,3.000000,3.000000,3.000000\nbase,B,0.750000,0.750000\nfleet,0.750000,0.750000\ntotal,3.000000,3.000000\nbound,3.000000\ngap,0.000000\nrounding,0.000001\nprice,0.009502129316\nhull,0\ncritical,L,100\n",
        "accepted,1\nbudget,0\ncost,0\nupper,3.000000\nbound,3.000000\n",
    ),
    (
        ONE,
        "--budget 250",
        "plan,250\ncost,200\nitem,L,D,0,2.000000,2.000000,2.000000,2.000000,2.000000,2.000000,2.000000,2.000000\nitem,L,B,2,3.000000,3.000000,3.000000,3.000000,1.248935,1.248936,2.091651,2.091652\nbase,B,0.895922,0.895923\nfleet,0.895922,0.895923\ntotal,1.248935,1.248936\nbound,0.960530\ngap,0.288405\nrounding,0.000001\nprice,0.005768099188\nhull,200\ncritical,L,100\n",
        "accepted,1\nbudget,250\ncost,200\nupper,1.248936\nbound,0.960530\n",
    ),
    (
        ONE,
        "--budget=250 --format 2",
        "plan,250\ncost,200\nitem,L,D,0,2.000000,2.000000,2.000000,2.000000,2.000000,2.000000,2.000000,2.000000\nitem,L,B,2,3.000000,3.000000,3.000000,3.000000,1.248935,1.248936,2.091651,2.091652\nbase,B,0.895922,0.895923\nfleet,0.895922,0.895923\ntotal,1.248935,1.248936\nbound,0.960530\ngap,0.288405\nrounding,0.000001\nprice,0.005768099188\nhull,200\ncritical,L,100\n",
        "accepted,2\nbudget,250\ncost,200\nupper,1.248936\nbound,0.960530\n",
    ),
    (
        ONE,
        "--budget 500",
        "plan,500\ncost,500\nitem,L,D,2,2.000000,2.000000,2.000000,2.000000,0.541341,0.541342,0.894938,0.894939\nitem,L,B,3,1.541341,1.541342,1.894938,1.894939,0.141759,0.141760,0.278122,0.278123\nbase,B,0.988186,0.988187\nfleet,0.988186,0.988187\ntotal,0.141759,0.141760\nbound,0.141759\ngap,0.000001\nrounding,0.000001\nprice,0.000000000000\nhull,500\ncritical,none\n",
        "accepted,1\nbudget,500\ncost,500\nupper,0.141760\nbound,0.141759\n",
    ),
    (
        SMALL,
        "--budget 0",
        "plan,0\ncost,0\nitem,L,D,0,2.000000,2.000000,2.000000,2.000000,2.000000,2.000000,2.000000,2.000000\nitem,L,B,0,3.000000,3.000000,3.000000,3.000000,3.000000,3.000000,3.000000,3.000000\nbase,B,0.000000,0.000000\nfleet,0.000000,0.000000\ntotal,3.000000,3.000000\nbound,3.000000\ngap,0.000000\nrounding,0.000001\nprice,0.009502129316\nhull,0\ncritical,L,100\n",
        "accepted,1\nbudget,0\ncost,0\nupper,3.000000\nbound,3.000000\n",
    ),
    (
        WEIGHTED,
        "--budget 0 --format 1",
        "plan,0\ncost,0\nitem,L,D,0,2.000000,2.000000,2.000000,2.000000,2.000000,2.000000,2.000000,2.000000\nitem,L,B,0,3.000000,3.000000,3.000000,3.000000,3.000000,3.000000,3.000000,3.000000\nbase,B,0.750000,0.750000\nfleet,0.750000,0.750000\ntotal,9.000000,9.000000\nbound,9.000000\ngap,0.000000\nrounding,0.000001\nprice,0.028506387948\nhull,0\ncritical,L,100\n",
        "accepted,1\nbudget,0\ncost,0\nupper,9.000000\nbound,9.000000\n",
    ),
    (
        ALIKE,
        "--budget 150",
        "plan,150\ncost,100\nitem,L,D,0,2.000000,2.000000,2.000000,2.000000,2.000000,2.000000,2.000000,2.000000\nitem,L,B,1,3.000000,3.000000,3.000000,3.000000,2.049787,2.049788,2.748585,2.748586\nitem,K,D,0,2.000000,2.000000,2.000000,2.000000,2.000000,2.000000,2.000000,2.000000\nitem,K,B,0,3.000000,3.000000,3.000000,3.000000,3.000000,3.000000,3.000000,3.000000\nbase,B,0.621888,0.621889\nfleet,0.621888,0.621889\ntotal,5.049787,5.049788\nbound,4.574680\ngap,0.475107\nrounding,0.000001\nprice,0.009502129316\nhull,100\ncritical,K,100\n",
        "accepted,1\nbudget,150\ncost,100\nupper,5.049788\nbound,4.574680\n",
    ),
    (
        CHEAP,
        "--budget 160",
        "plan,160\ncost,150\nitem,L,D,0,2.000000,2.000000,2.000000,2.000000,2.000000,2.000000,2.000000,2.000000\nitem,L,B,0,3.000000,3.000000,3.000000,3.000000,3.000000,3.000000,3.000000,3.000000\nitem,K,D,2,2.000000,2.000000,2.000000,2.000000,0.541341,0.541342,0.894938,0.894939\nitem,K,B,3,1.541341,1.541342,1.894938,1.894939,0.141759,0.141760,0.278122,0.278123\nbase,B,0.741140,0.741141\nfleet,0.741140,0.741141\ntotal,3.141759,3.141760\nbound,2.940400\ngap,0.201359\nrounding,0.000001\nprice,0.009502129316\nhull,120\ncritical,L,100\n",
        "accepted,1\nbudget,160\ncost,150\nupper,3.141760\nbound,2.940400\n",
    ),
    (
        BARE,
        "--budget 0",
        "plan,0\ncost,0\nbase,B,1.000000,1.000000\nfleet,1.000000,1.000000\ntotal,0.000000,0.000000\nbound,0.000000\ngap,0.000000\nrounding,0.000001\nprice,0.000000000000\nhull,0\ncritical,none\n",
        "accepted,1\nbudget,0\ncost,0\nupper,0.000000\nbound,0.000000\n",
    ),
    (
        CHOICES,
        "--budget 1000 --format 2",
        "plan,1000\ncost,1000\nitem,L,D,2,0.399999,0.400001,0.399999,0.400001,0.008768,0.008769,0.010514,0.010515\nitem,L,B1,4,0.104384,0.104385,0.104820,0.104821,0.000000,0.000001,0.000000,0.000001\nitem,L,B2,4,0.104384,0.104385,0.104820,0.104821,0.000000,0.000001,0.000000,0.000001\nbase,B1,0.999999,1.000000\nbase,B2,0.999999,1.000000\nfleet,0.999999,1.000000\ntotal,0.000000,0.000001\nbound,0.000000\ngap,0.000001\nrounding,0.000001\nprice,0.000000001475\nhull,1000\ncritical,L,100\n",
        "accepted,2\nbudget,1000\ncost,1000\nupper,0.000001\nbound,0.000000\n",
    ),
    (
        UNLIKE,
        "--budget 150",
        "plan,150\ncost,100\nitem,L,D,0,2.000000,2.000000,2.000000,2.000000,2.000000,2.000000,2.000000,2.000000\nitem,L,B,0,3.000000,3.000000,3.000000,3.000000,3.000000,3.000000,3.000000,3.000000\nitem,K,D,0,2.000000,2.000000,2.000000,2.000000,2.000000,2.000000,2.000000,2.000000\nitem,K,B,1,3.000000,3.000000,3.000000,3.000000,2.049787,2.049788,2.748585,2.748586\nbase,B,0.621888,0.621889\nfleet,0.621888,0.621889\ntotal,7.099574,7.099575\nbound,6.298722\ngap,0.800852\nrounding,0.000001\nprice,0.016017034530\nhull,100\ncritical,K,100\n",
        "accepted,1\nbudget,150\ncost,100\nupper,7.099575\nbound,6.298722\n",
    ),
    (
        ONE,
        "--budget 0 --objective log-availability",
        "plan,0\ncost,0\nitem,L,D,0,2.000000,2.000000,2.000000,2.000000,2.000000,2.000000,2.000000,2.000000\nitem,L,B,0,3.000000,3.000000,3.000000,3.000000,3.000000,3.000000,3.000000,3.000000\nbase,B,0.750000,0.750000\nfleet,0.750000,0.750000\ntotal,3.000000,3.000000\nloss,3.452184,3.452185\nbound,3.452184\ngap,0.000001\nrounding,0.000001\nprice,0.012044324852\nhull,0\ncritical,L,100\n",
        "accepted,2\nbudget,0\ncost,0\nupper,3.452185\nbound,3.452184\n",
    ),
    (
        ONE,
        "--budget 250 --objective log-availability",
        "plan,250\ncost,200\nitem,L,D,0,2.000000,2.000000,2.000000,2.000000,2.000000,2.000000,2.000000,2.000000\nitem,L,B,2,3.000000,3.000000,3.000000,3.000000,1.248935,1.248936,2.091651,2.091652\nbase,B,0.895922,0.895923\nfleet,0.895922,0.895923\ntotal,1.248935,1.248936\nloss,1.318822,1.318823\nbound,1.005252\ngap,0.313571\nrounding,0.000001\nprice,0.006271401277\nhull,200\ncritical,L,100\n",
        "accepted,2\nbudget,250\ncost,200\nupper,1.318823\nbound,1.005252\n",
    ),
    (
        SMALL,
        "--budget 0 --objective log-availability",
        "plan,0\ncost,0\nitem,L,D,0,2.000000,2.000000,2.000000,2.000000,2.000000,2.000000,2.000000,2.000000\nitem,L,B,0,3.000000,3.000000,3.000000,3.000000,3.000000,3.000000,3.000000,3.000000\nbase,B,0.000000,0.000000\nfleet,0.000000,0.000000\ntotal,3.000000,3.000000\nloss,4.158883,4.158884\nbound,4.158883\ngap,0.000001\nrounding,0.000001\nprice,0.011132493084\nhull,0\ncritical,L,300\n",
        "accepted,2\nbudget,0\ncost,0\nupper,4.158884\nbound,4.158883\n",
    ),
    (
        WEIGHTED,
        "--budget 0 --objective log-availability",
        "plan,0\ncost,0\nitem,L,D,0,2.000000,2.000000,2.000000,2.000000,2.000000,2.000000,2.000000,2.000000\nitem,L,B,0,3.000000,3.000000,3.000000,3.000000,3.000000,3.000000,3.000000,3.000000\nbase,B,0.750000,0.750000\nfleet,0.750000,0.750000\ntotal,9.000000,9.000000\nloss,3.452184,3.452185\nbound,3.452184\ngap,0.000001\nrounding,0.000001\nprice,0.012044324852\nhull,0\ncritical,L,100\n",
        "accepted,2\nbudget,0\ncost,0\nupper,3.452185\nbound,3.452184\n",
    ),
    (
        HELD,
        "--budget 0 --on-hand stocks",
        "plan,0\ncost,0\non-hand,100\nitem,L,D,0,2.000000,2.000000,2.000000,2.000000,2.000000,2.000000,2.000000,2.000000\nitem,L,B,1,3.000000,3.000000,3.000000,3.000000,2.049787,2.049788,2.748585,2.748586\nbase,B,0.829184,0.829185\nfleet,0.829184,0.829185\ntotal,2.049787,2.049788\nbound,2.049787\ngap,0.000001\nrounding,0.000001\nprice,0.008008517265\nhull,0\ncritical,L,100\n",
        "accepted,2\nbudget,0\ncost,0\non-hand,100\nupper,2.049788\nbound,2.049787\n",
    ),
    (
        UNHELD,
        "--budget 250 --on-hand=stocks",
        "plan,250\ncost,200\non-hand,0\nitem,L,D,0,2.000000,2.000000,2.000000,2.000000,2.000000,2.000000,2.000000,2.000000\nitem,L,B,2,3.000000,3.000000,3.000000,3.000000,1.248935,1.248936,2.091651,2.091652\nbase,B,0.895922,0.895923\nfleet,0.895922,0.895923\ntotal,1.248935,1.248936\nbound,0.960530\ngap,0.288405\nrounding,0.000001\nprice,0.005768099188\nhull,200\ncritical,L,100\n",
        "accepted,2\nbudget,250\ncost,200\non-hand,0\nupper,1.248936\nbound,0.960530\n",
    ),
    (
        HELD,
        "--budget 0 --on-hand stocks --objective log-availability",
        "plan,0\ncost,0\non-hand,100\nitem,L,D,0,2.000000,2.000000,2.000000,2.000000,2.000000,2.000000,2.000000,2.000000\nitem,L,B,1,3.000000,3.000000,3.000000,3.000000,2.049787,2.049788,2.748585,2.748586\nbase,B,0.829184,0.829185\nfleet,0.829184,0.829185\ntotal,2.049787,2.049788\nloss,2.247752,2.247753\nbound,2.247752\ngap,0.000001\nrounding,0.000001\nprice,0.009289300383\nhull,0\ncritical,L,100\n",
        "accepted,2\nbudget,0\ncost,0\non-hand,100\nupper,2.247753\nbound,2.247752\n",
    ),
];

/// The certificate of the first case at a budget of 250, its first half, and the first half of the report.
const CERTIFICATE: &str =
    "spares-certificate,1\nsites,2\nD,depot,,\nB,base,12,10.00\nparts,1\nL,,100,1,2,3\nrates,2\nL,D,,,,20.00\nL,B,36.5000,0.0000,,0.00\nbudget,250\nprice,162357558481304,100\nfloors,1\n67625916321994100\nstocks,2\n0\n2\nupper,351544046257340\nbound,270365267016681\nend\n";

const HALF_CERTIFICATE: &str =
    "spares-certificate,1\nsites,2\nD,depot,,\nB,base,12,10.00\nparts,1\nL,,100,1,2,3\nrates,2\nL,D,,,,20.00\nL,B,36.5000,0.0000,,0.00\nb";

const WHOLE_REPORT: &str =
    "plan,250\ncost,200\nitem,L,D,0,2.000000,2.000000,2.000000,2.000000,2.000000,2.000000,2.000000,2.000000\nitem,L,B,2,3.000000,3.000000,3.000000,3.000000,1.248935,1.248936,2.091651,2.091652\nbase,B,0.895922,0.895923\nfleet,0.895922,0.895923\ntotal,1.248935,1.248936\nbound,0.960530\ngap,0.288405\nrounding,0.000001\nprice,0.005768099188\nhull,200\ncritical,L,100\n";

const HALF_REPORT: &str =
    "plan,250\ncost,200\nitem,L,D,0,2.000000,2.000000,2.000000,2.000000,2.000000,2.000000,2.000000,2.000000\nitem,L,B,2,3.000000,3.000000,3.000000,3.000000,1.248935,1.248936,2.091651";

/// At a budget of 250, the number of a failing call of the shelf and of the output, each 0 if none fails; the
/// certificate on the shelf afterwards, empty if there is none; the output, the line and the status.
const FAILING: [(u32, u32, &str, &str, &str, u8); 6] = [
    (1, 0, "", "", "fault,read,sites\n", 5),
    (2, 0, "", "", "fault,read,parts\n", 5),
    (3, 0, "", "", "fault,read,rates\n", 5),
    (4, 0, HALF_CERTIFICATE, "", "fault,write\n", 6),
    (0, 1, CERTIFICATE, HALF_REPORT, "fault,write\n", 6),
    (5, 2, CERTIFICATE, WHOLE_REPORT, "", 0),
];

/// Refused tables and words, with the line and the status.
const REFUSED: [(&str, &str, &str, u8); 8] = [
    (ONE, "", "fault,words\n", 2),
    (ONE, "--budget 1 --budget 1", "fault,words\n", 2),
    (ONE, "--budget 1 more", "fault,words\n", 2),
    (ONE, "--budget=-1", "fault,number,budget\n", 2),
    (
        ONE,
        "--budget 1000000000000001 --format 3",
        "fault,range,budget\n",
        2,
    ),
    (ONE, "--budget 1 --format 3", "fault,range,format\n", 2),
    (LARGE, "--budget 1000", "fault,work,1152762\n", 3),
    (UNRATED, "--budget 1000", "fault,missing-rate,L,B\n", 3),
];

/// The shelf has exactly this content under a name, or lacks the name if it is empty.
fn holds(rt: &impl Abort, shelf: &MemShelf, name: &str, text: &str) {
    assert_eq!(rt;
        shelf.file(name).unwrap_or(b"".as_slice()),
        text.as_bytes(),
        "{name}"
    );
}

/// A shelf's tables are planned, and then its certificate is accepted.
fn plans_and_checks(
    rt: &impl Abort,
    alloc: Global,
    line: &str,
    shelf: &mut MemShelf,
    report: &str,
    checked: &str,
) -> Result<(), Fail> {
    ends(rt, alloc, line, shelf, &[], printed(report))?;
    ends(rt, alloc, CHECK, shelf, &[], printed(checked))
}

/// Tables are planned, and the certificate is accepted.
fn plans(rt: &impl Abort, alloc: Global, rows: &[(&str, &str, &str, &str)]) -> Result<(), Fail> {
    for (tables, words, report, checked) in rows {
        let line = format!(in alloc; "{PLAN} {words}")?;
        let mut shelf = shelf_of(alloc, tables, &[])?;
        let ended = plans_and_checks(rt, alloc, line.as_str(), &mut shelf, report, checked);
        drop(shelf);
        ended?;
    }
    Ok(())
}

/// Runs words on a shelf, and compares its end and then its certificate, which is empty if there is none.
fn leaves(
    rt: &impl Abort,
    alloc: Global,
    line: &str,
    shelf: MemShelf,
    fails: &[u32],
    wanted: Ended,
    certificate: &str,
) -> Result<(), Fail> {
    let mut shelf = shelf;
    let ended = ends(rt, alloc, line, &mut shelf, fails, wanted);
    holds(rt, &shelf, "certificate", certificate);
    drop(shelf);
    ended
}

/// A plan is refused, and no certificate is written.
fn refuses(rt: &impl Abort, alloc: Global, rows: &[(&str, &str, &str, u8)]) -> Result<(), Fail> {
    for (tables, words, refusal, code) in rows {
        let line = format!(in alloc; "{PLAN} {words}")?;
        let shelf = shelf_of(alloc, tables, &[])?;
        leaves(
            rt,
            alloc,
            line.as_str(),
            shelf,
            &[],
            refused(*code, refusal),
            "",
        )?;
    }
    Ok(())
}

/// If a call of the shelf or of the output fails, both have these contents.
fn stops(
    rt: &impl Abort,
    alloc: Global,
    rows: &[(u32, u32, &str, &str, &str, u8)],
) -> Result<(), Fail> {
    let line = format!(in alloc; "{PLAN} --budget 250")?;
    for (call, put, held, out, err, code) in rows {
        let wanted = Ended {
            status: *code,
            out: *out,
            err: *err,
        };
        let shelf = shelf_of(alloc, ONE, &[*call])?;
        leaves(rt, alloc, line.as_str(), shelf, &[*put], wanted, held)?;
    }
    Ok(())
}

#[test]
fn plans_tables_and_accepts_their_certificates(rt: HostRuntime) -> Result<(), Fail> {
    plans(&rt, rt.alloc(), &PLANNED)
}

#[test]
fn refuses_plans(rt: HostRuntime) -> Result<(), Fail> {
    refuses(&rt, rt.alloc(), &REFUSED)
}

#[test]
fn stops_a_plan_at_each_call_that_fails(rt: HostRuntime) -> Result<(), Fail> {
    stops(&rt, rt.alloc(), &FAILING)
}

/// A certificate replaces the table of its name.
fn replaces(rt: &impl Abort, alloc: Global, shelf: &mut MemShelf) -> Result<(), Fail> {
    let words = "plan --sites sites --parts parts --rates rates --budget 250 --certificate rates";
    ends(rt, alloc, words, shelf, &[], printed(WHOLE_REPORT))?;
    holds(rt, shelf, "rates", CERTIFICATE);
    let fault = refused(3, "fault,field-count,rates,1,2\n");
    ends(rt, alloc, words, shelf, &[], fault)
}

#[test]
fn replaces_an_input(rt: HostRuntime) -> Result<(), Fail> {
    let mut shelf = shelf_of(rt.alloc(), ONE, &[])?;
    let ended = replaces(&rt, rt.alloc(), &mut shelf);
    drop(shelf);
    ended
}
