// What the threads of a tree carry is Send, and what they share is Sync, also as seen from a crate above.
use otp_job::bridge::BoxedSubsystem;
use otp_job::{Body, BoxedJob};
use otp_tree::{Hand, Report, System, TablePlan, TreeClient, TreeNaming};

fn is_send<T: Send>(_: &T) {}

fn is_sync<T: Sync>(_: &T) {}

pub fn system_is_shared<N: TreeNaming + Send + Sync>(
    system: &System<N, BoxedJob, BoxedSubsystem>,
    client: &TreeClient<N, Body<BoxedJob, BoxedSubsystem>>,
) {
    is_send(system);
    is_sync(system);
    is_send(client);
}

pub fn hand_is_carried<N: TreeNaming + Send + Sync>(hand: &Hand<N, BoxedJob, BoxedSubsystem>) {
    is_send(hand);
}

pub fn what_stands_before_and_after_is_carried(
    plan: &TablePlan<BoxedJob, BoxedSubsystem>,
    report: &Report<BoxedJob, BoxedSubsystem>,
) {
    is_send(plan);
    is_send(report);
}
