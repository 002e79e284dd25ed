//! The functions that OTP's `supervisor` exports, as calls of a tree that runs. What each is answered, and why it is refused, stands in
//! `answers.rt`: a call answers what the function of its name there makes of the supervisor's reply.

use crate::calling::answers::{
    CallError, DeleteRefusal, GetRefusal, NoRefusal, RestartRefusal, StartEnd, TerminateRefusal,
    counted, deleted, described, given, listed, restarted, started, terminated,
};
use crate::calling::caller::Caller;
use otp_job::Body;
use otp_reason::Name;
use otp_rules::{Call, ChildLines, CountsNow, Reply};
use otp_spec::ChildSpec;
use std::sync::Wait;

impl<J: Drop, S: Drop> Caller<J, S> {
    /// A call that brings no body.
    fn ask<R: Wait, F>(&self, rt: &R, table: usize, call: Call) -> Result<Reply, CallError<F>> {
        let (answer, body) = given::<J, S, F>(self.call(rt, table, call, None));
        drop(body);
        answer
    }

    /// restart_child/2: the number of the child's process, or None where its start answered `ignore`.
    pub fn restart_child<R: Wait>(
        &self,
        rt: &R,
        table: usize,
        id: Name,
    ) -> Result<Option<u64>, CallError<RestartRefusal>> {
        restarted(self.ask(rt, table, Call::RestartChild(id))?)
    }

    /// delete_child/2.
    pub fn delete_child<R: Wait>(
        &self,
        rt: &R,
        table: usize,
        id: Name,
    ) -> Result<(), CallError<DeleteRefusal>> {
        deleted(self.ask(rt, table, Call::DeleteChild(id))?)
    }

    /// terminate_child/2 by the id.
    pub fn terminate_child<R: Wait>(
        &self,
        rt: &R,
        table: usize,
        id: Name,
    ) -> Result<(), CallError<TerminateRefusal>> {
        self.terminate(rt, table, Call::TerminateChild(id))
    }

    /// terminate_child/2 by the process number, under simple_one_for_one.
    pub fn terminate_process<R: Wait>(
        &self,
        rt: &R,
        table: usize,
        number: u64,
    ) -> Result<(), CallError<TerminateRefusal>> {
        self.terminate(rt, table, Call::TerminateProcess(number))
    }

    fn terminate<R: Wait>(
        &self,
        rt: &R,
        table: usize,
        call: Call,
    ) -> Result<(), CallError<TerminateRefusal>> {
        terminated(self.ask(rt, table, call)?)
    }

    /// which_children/1: the children in start order.
    pub fn which_children<R: Wait>(
        &self,
        rt: &R,
        table: usize,
    ) -> Result<ChildLines, CallError<NoRefusal>> {
        listed(self.ask(rt, table, Call::WhichChildren)?)
    }

    /// count_children/1.
    pub fn count_children<R: Wait>(
        &self,
        rt: &R,
        table: usize,
    ) -> Result<CountsNow, CallError<NoRefusal>> {
        counted(self.ask(rt, table, Call::CountChildren)?)
    }

    /// get_childspec/2.
    pub fn get_childspec<R: Wait>(
        &self,
        rt: &R,
        table: usize,
        id: Name,
    ) -> Result<ChildSpec, CallError<GetRefusal>> {
        described(self.ask(rt, table, Call::GetChildspec(id))?)
    }

    /// start_child/2 with a specification: adds a child as the last one, and starts it.
    pub fn start_child<R: Wait>(
        &self,
        rt: &R,
        table: usize,
        spec: ChildSpec,
        body: Body<J, S>,
    ) -> StartEnd<J, S> {
        started(self.call(rt, table, Call::StartChild(spec), Some(body)))
    }

    /// start_child/2 under simple_one_for_one: starts one more child by the specification that all share.
    pub fn start_dynamic<R: Wait>(&self, rt: &R, table: usize, body: Body<J, S>) -> StartEnd<J, S> {
        started(self.call(rt, table, Call::StartDynamic, Some(body)))
    }
}
